// The operations of `blocks` on the blocks and rows of lent slices.
// These functions ask that the blocks are there, so that no user calls them.
ghost use Rattle.std.specs.Prelude.{◌≡◌, List, Float, ◌*◌, ◌≤◌, length};
ghost use Rattle.std.specs.Float.{binary64};
ghost use Rattle.blocks.specs.Block.{added, subtracted, scaled};
ghost use Rattle.blocks.specs.Lent.{block_at};
ghost use Rattle.lent.specs.Steps.{Within, product_at, apply_at, inverse_at, Inverting, product_each, apply_each, inverse_each, InvertingLast, part_at, each_part};

use answers::Answer;
use blocks::Size;
use blocks::unchecked::{Lent, block_at, put_block, put_row, vector_at};

// Block e of out: the product of block i of a and block j of b.
#[tactic(auto, unfolding(crate::specs::Steps::product_at))]
pub fn product_at<S: Size>(out: &mut [f64], e: usize, a: &[f64], i: usize, b: &[f64], j: usize)
    requires { (Within (S.DIM * S.DIM) e (length out.old)) × (Within (S.DIM * S.DIM) i (length a.now)) × (Within (S.DIM * S.DIM) j (length b.now)) }
    ensures { out.new ≡ product_at binary64 S.DIM a.now i b.now j e out.old }
{
    let product = S::product(block_at::<S>(a, i), block_at::<S>(b, j));
    put_block::<S>(out, e, product);
}

// Row e of out: block i of a times row j of x.
#[tactic(auto, unfolding(crate::specs::Steps::apply_at))]
pub fn apply_at<S: Size>(out: &mut [f64], e: usize, a: &[f64], i: usize, x: &[f64], j: usize)
    requires { (Within S.DIM e (length out.old)) × (Within (S.DIM * S.DIM) i (length a.now)) × (Within S.DIM j (length x.now)) }
    ensures { out.new ≡ apply_at binary64 S.DIM a.now i x.now j e out.old }
{
    let applied = S::apply(block_at::<S>(a, i), vector_at::<S>(x, j));
    put_row::<S>(out, e, applied);
}

// Block e of out: the inverse of block i of a, or that block as given if the answer is 9.
#[tactic(auto, unfolding(crate::specs::Steps::inverse_at, crate::specs::Steps::inverse_or))]
pub fn inverse_at<S: Size>(out: &mut [f64], e: usize, a: &[f64], i: usize) -> Answer
    requires { (Within (S.DIM * S.DIM) e (length out.old)) × (Within (S.DIM * S.DIM) i (length a.now)) }
    ensures { (Inverting binary64 S.DIM (block_at S.DIM a.now i) result) × (out.new ≡ inverse_at binary64 S.DIM a.now i e out.old) }
{
    match S::inverse(block_at::<S>(a, i)) {
        Ok(inverse) => {
            put_block::<S>(out, e, inverse);
            Ok(())
        }
        Err(why) => {
            put_block::<S>(out, e, why.block);
            Err(why.into())
        }
    }
}

// The first `count` blocks of out: the products of those of a and b.
#[tactic(auto, using(base::proofs::Iterate::iterate_none, base::proofs::Iterate::iterate_more, base::proofs::Sizes::part_fits), unfolding(crate::specs::Steps::product_each))]
pub fn product_each<S: Size>(out: &mut [f64], a: &[f64], b: &[f64], count: usize)
    requires { (S.DIM * S.DIM * count ≤ length out.old) × (S.DIM * S.DIM * count ≤ length a.now) × (S.DIM * S.DIM * count ≤ length b.now) }
    ensures { out.new ≡ product_each binary64 S.DIM a.now b.now count out.old }
{
    for k in 0..count {
        product_at::<S>(out, k, a, k, b, k);
    }
}

// The first `count` rows of out: the blocks of a times the rows of x.
#[tactic(auto, using(base::proofs::Iterate::iterate_none, base::proofs::Iterate::iterate_more, base::proofs::Sizes::part_fits), unfolding(crate::specs::Steps::apply_each))]
pub fn apply_each<S: Size>(out: &mut [f64], a: &[f64], x: &[f64], count: usize)
    requires { (S.DIM * count ≤ length out.old) × (S.DIM * S.DIM * count ≤ length a.now) × (S.DIM * count ≤ length x.now) }
    ensures { out.new ≡ apply_each binary64 S.DIM a.now x.now count out.old }
{
    for k in 0..count {
        apply_at::<S>(out, k, a, k, x, k);
    }
}

// The first `count` blocks of out: the inverses of those of a. It answers as the last one does.
#[tactic(auto, using(base::proofs::Iterate::iterate_none, base::proofs::Iterate::iterate_more, base::proofs::Sizes::part_fits), unfolding(crate::specs::Steps::inverse_each))]
pub fn inverse_each<S: Size>(out: &mut [f64], a: &[f64], count: usize) -> Answer
    requires { (S.DIM * S.DIM * count ≤ length out.old) × (S.DIM * S.DIM * count ≤ length a.now) }
    ensures { (InvertingLast binary64 S.DIM a.now count result) × (out.new ≡ inverse_each binary64 S.DIM a.now count out.old) }
{
    let mut last = Ok(());
    for k in 0..count {
        last = inverse_at::<S>(out, k, a, k);
    }
    last
}

// Part k of out: what `op` makes of part k of u and part k of v.
fn part<V: Lent, F: Fn(V, V) -> V>(out: &mut [f64], k: usize, u: &[f64], v: &[f64], op: &F)
    requires { (F.IsAlwaysCallable op.now) × (Within V.count k (length out.old)) × (Within V.count k (length u.now)) × (Within V.count k (length v.now)) }
    ensures { (f : List Float → List Float → List Float) → ((x y z : V) → F.post op.now x y z → V.list z ≡ f (V.list x) (V.list y)) → out.new ≡ part_at f V.count u.now v.now k out.old }
{
    op(V::at(u, k), V::at(v, k)).put(out, k);
}

// The first `count` parts of out likewise.
#[tactic(auto, using(base::proofs::Iterate::iterate_none, base::proofs::Iterate::iterate_more, base::proofs::Sizes::part_fits), unfolding(crate::specs::Steps::each_part))]
fn each_part<V: Lent, F: Fn(V, V) -> V>(out: &mut [f64], u: &[f64], v: &[f64], count: usize, op: F)
    requires { (F.IsAlwaysCallable op) × (V.count * count ≤ length out.old) × (V.count * count ≤ length u.now) × (V.count * count ≤ length v.now) }
    ensures { (f : List Float → List Float → List Float) → ((x y z : V) → F.post op x y z → V.list z ≡ f (V.list x) (V.list y)) → out.new ≡ each_part f V.count u.now v.now count out.old }
{
    for k in 0..count {
        part(out, k, u, v, &op);
    }
}

// The first `count` parts of out: the sums of those of u and v.
pub fn add_each<V: Lent>(out: &mut [f64], u: &[f64], v: &[f64], count: usize)
    requires { (V.count * count ≤ length out.old) × (V.count * count ≤ length u.now) × (V.count * count ≤ length v.now) }
    ensures { out.new ≡ each_part (added binary64 V.count) V.count u.now v.now count out.old }
{
    each_part(out, u, v, count, |x: V, y: V| x.add(y));
}

// The differences likewise.
pub fn subtract_each<V: Lent>(out: &mut [f64], u: &[f64], v: &[f64], count: usize)
    requires { (V.count * count ≤ length out.old) × (V.count * count ≤ length u.now) × (V.count * count ≤ length v.now) }
    ensures { out.new ≡ each_part (subtracted binary64 V.count) V.count u.now v.now count out.old }
{
    each_part(out, u, v, count, |x: V, y: V| x.subtract(y));
}

// The parts of v, scaled by s.
pub fn scale_each<V: Lent>(out: &mut [f64], v: &[f64], s: f64, count: usize)
    requires { (V.count * count ≤ length out.old) × (V.count * count ≤ length v.now) }
    ensures { out.new ≡ each_part (λ x _. scaled binary64 V.count x s) V.count v.now v.now count out.old }
{
    each_part(out, v, v, count, |x: V, _: V| x.scale(s));
}
