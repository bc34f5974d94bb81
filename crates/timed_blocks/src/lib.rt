// The block calls over many blocks that lie one after the other, for a benchmark: no bytes are coded, so that none are timed.
// Each does as many blocks as all its slices have room for, and nothing for an N other than 1, 2, 3.
#![tactic(auto)]

ghost use Rattle.std.specs.Prelude.{◌≡◌, cond, ◌*◌, ◌≤◌, length};
ghost use Rattle.std.specs.Float.{binary64};
ghost use Rattle.answers.specs.Limits.{outside_of};
ghost use Rattle.base.specs.Each.{each_to};
ghost use Rattle.blocks.specs.Block.{scaled, added, subtracted};
ghost use Rattle.lent.specs.Steps.{product_each, apply_each, inverse_each};
ghost use Rattle.timed_blocks.specs.Timed.{lesser_of, fitting_of, Fitting, root_at, parts_of};

use blocks::{One, Size, Three, Two, block_size};
use lent::unchecked::{
    add_each, apply_each, inverse_each, product_each, scale_each, subtract_each,
};

// As many parts as a length a has in parts of p, and b and c have in parts of q.
#[tactic(auto, using(crate::proofs::TimedLaws::fits_all))]
fn fitting(p: usize, a: usize, q: usize, b: usize, c: usize) -> usize
    requires { (1 ≤ p) × (1 ≤ q) }
    ensures { Fitting p a q b c result }
{
    (a / p).min((b / q).min(c / q))
}

// The products of as many blocks as fit.
fn product_all<S: Size>(a: &[f64], b: &[f64], out: &mut [f64])
    ensures { out.new ≡ product_each binary64 S.DIM a.now b.now
        (fitting_of (S.DIM * S.DIM) (length a.now) (S.DIM * S.DIM) (length b.now) (length out.old))
        out.old }
{
    let size = block_size::<S>();
    let count = fitting(size, a.len(), size, b.len(), out.len());
    product_each::<S>(out, a, b, count);
}

// The products of the blocks of a and b.
pub fn product(dim: u32, a: &[f64], b: &[f64], out: &mut [f64])
    ensures { out.new ≡ cond (outside_of 1 3 dim) out.old (product_each binary64 dim a.now b.now
        (fitting_of (dim * dim) (length a.now) (dim * dim) (length b.now) (length out.old))
        out.old) }
{
    match dim {
        1 => product_all::<One>(a, b, out),
        2 => product_all::<Two>(a, b, out),
        3 => product_all::<Three>(a, b, out),
        _ => {}
    }
}

// As many blocks of a as fit times the rows of x.
fn apply_all<S: Size>(a: &[f64], x: &[f64], out: &mut [f64])
    ensures { out.new ≡ apply_each binary64 S.DIM a.now x.now
        (fitting_of (S.DIM * S.DIM) (length a.now) S.DIM (length x.now) (length out.old))
        out.old }
{
    let count = fitting(block_size::<S>(), a.len(), S::DIM, x.len(), out.len());
    apply_each::<S>(out, a, x, count);
}

// The blocks of a times the rows of x.
pub fn apply(dim: u32, a: &[f64], x: &[f64], out: &mut [f64])
    ensures { out.new ≡ cond (outside_of 1 3 dim) out.old (apply_each binary64 dim a.now x.now
        (fitting_of (dim * dim) (length a.now) dim (length x.now) (length out.old))
        out.old) }
{
    match dim {
        1 => apply_all::<One>(a, x, out),
        2 => apply_all::<Two>(a, x, out),
        3 => apply_all::<Three>(a, x, out),
        _ => {}
    }
}

// The inverses of as many blocks as fit.
fn inverse_all<S: Size>(a: &[f64], out: &mut [f64])
    ensures { out.new ≡ inverse_each binary64 S.DIM a.now
        (fitting_of (S.DIM * S.DIM) (length a.now) (S.DIM * S.DIM) (length out.old) (length out.old))
        out.old }
{
    let size = block_size::<S>();
    let count = fitting(size, a.len(), size, out.len(), out.len());
    let _ = inverse_each::<S>(out, a, count);
}

// The inverses of the blocks of a. Which of them are singular is not told: a refused block stays as given.
pub fn inverse(dim: u32, a: &[f64], out: &mut [f64])
    ensures { out.new ≡ cond (outside_of 1 3 dim) out.old (inverse_each binary64 dim a.now
        (fitting_of (dim * dim) (length a.now) (dim * dim) (length out.old) (length out.old))
        out.old) }
{
    match dim {
        1 => inverse_all::<One>(a, out),
        2 => inverse_all::<Two>(a, out),
        3 => inverse_all::<Three>(a, out),
        _ => {}
    }
}

// The roots of the values of x.
#[tactic(auto, using(base::proofs::Each::each_none, crate::proofs::TimedLaws::lesser_is))]
pub fn square_root(x: &[f64], out: &mut [f64])
    ensures { out.new ≡ each_to (root_at binary64 x.now) (lesser_of (length x.now) (length out.old)) out.old }
{
    for i in 0..x.len().min(out.len()) {
        out[i] = root::square_root(x[i]);
    }
}

// The sums of as many parts of L values as fit. This and the two like it say which operation of `lent` is meant; with a closure for it all three would stay.
fn add_all<const L: usize>(u: &[f64], v: &[f64], out: &mut [f64])
    requires { (1 ≤ L) × (L ≤ 9) }
    ensures { out.new ≡ parts_of (added binary64 L) L u.now v.now out.old }
{
    let count = fitting(L, u.len(), L, v.len(), out.len());
    add_each::<[f64; L]>(out, u, v, count);
}

pub fn add(dim: u32, u: &[f64], v: &[f64], out: &mut [f64])
    ensures { out.new ≡ cond (outside_of 1 3 dim) out.old (parts_of (added binary64 dim) dim u.now v.now out.old) }
{
    match dim {
        1 => add_all::<1>(u, v, out),
        2 => add_all::<2>(u, v, out),
        3 => add_all::<3>(u, v, out),
        _ => {}
    }
}

pub fn add_block(dim: u32, u: &[f64], v: &[f64], out: &mut [f64])
    ensures { out.new ≡ cond (outside_of 1 3 dim) out.old (parts_of (added binary64 (dim * dim)) (dim * dim) u.now v.now out.old) }
{
    match dim {
        1 => add_all::<1>(u, v, out),
        2 => add_all::<4>(u, v, out),
        3 => add_all::<9>(u, v, out),
        _ => {}
    }
}

// The differences of as many parts as fit.
fn subtract_all<const L: usize>(u: &[f64], v: &[f64], out: &mut [f64])
    requires { (1 ≤ L) × (L ≤ 9) }
    ensures { out.new ≡ parts_of (subtracted binary64 L) L u.now v.now out.old }
{
    let count = fitting(L, u.len(), L, v.len(), out.len());
    subtract_each::<[f64; L]>(out, u, v, count);
}

pub fn subtract(dim: u32, u: &[f64], v: &[f64], out: &mut [f64])
    ensures { out.new ≡ cond (outside_of 1 3 dim) out.old (parts_of (subtracted binary64 dim) dim u.now v.now out.old) }
{
    match dim {
        1 => subtract_all::<1>(u, v, out),
        2 => subtract_all::<2>(u, v, out),
        3 => subtract_all::<3>(u, v, out),
        _ => {}
    }
}

pub fn subtract_block(dim: u32, u: &[f64], v: &[f64], out: &mut [f64])
    ensures { out.new ≡ cond (outside_of 1 3 dim) out.old (parts_of (subtracted binary64 (dim * dim)) (dim * dim) u.now v.now out.old) }
{
    match dim {
        1 => subtract_all::<1>(u, v, out),
        2 => subtract_all::<4>(u, v, out),
        3 => subtract_all::<9>(u, v, out),
        _ => {}
    }
}

// As many parts of v as fit, scaled by s.
fn scale_all<const L: usize>(v: &[f64], s: f64, out: &mut [f64])
    requires { (1 ≤ L) × (L ≤ 9) }
    ensures { out.new ≡ parts_of (λ x _. scaled binary64 L x s) L v.now v.now out.old }
{
    let count = fitting(L, v.len(), L, v.len(), out.len());
    scale_each::<[f64; L]>(out, v, s, count);
}

pub fn scale(dim: u32, v: &[f64], s: f64, out: &mut [f64])
    ensures { out.new ≡ cond (outside_of 1 3 dim) out.old (parts_of (λ x _. scaled binary64 dim x s) dim v.now v.now out.old) }
{
    match dim {
        1 => scale_all::<1>(v, s, out),
        2 => scale_all::<2>(v, s, out),
        3 => scale_all::<3>(v, s, out),
        _ => {}
    }
}
