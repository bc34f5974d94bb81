// The block calls over many blocks that lie one after the other, for a benchmark: no bytes are coded, so that none are timed.
// Each does as many blocks as all its slices have room for, and nothing for an N other than 1, 2, 3. All work is in the crate `timed_blocks`.
ghost use Rattle.std.specs.Prelude.{◌≡◌, cond, ◌*◌, length};
ghost use Rattle.std.specs.Float.{binary64};
ghost use Rattle.answers.specs.Limits.{outside_of};
ghost use Rattle.base.specs.Each.{each_to};
ghost use Rattle.blocks.specs.Block.{scaled, added, subtracted};
ghost use Rattle.lent.specs.Steps.{product_each, apply_each, inverse_each};
ghost use Rattle.timed_blocks.specs.Timed.{lesser_of, fitting_of, root_at, parts_of};

// The products of the blocks of a and b.
pub fn pierbramble_timed_product(dim: u32, a: &[f64], b: &[f64], out: &mut [f64])
    ensures { out.new ≡ cond (outside_of 1 3 dim) out.old (product_each binary64 dim a.now b.now
        (fitting_of (dim * dim) (length a.now) (dim * dim) (length b.now) (length out.old))
        out.old) }
{
    timed_blocks::product(dim, a, b, out)
}

// The blocks of a times the rows of x.
pub fn pierbramble_timed_apply(dim: u32, a: &[f64], x: &[f64], out: &mut [f64])
    ensures { out.new ≡ cond (outside_of 1 3 dim) out.old (apply_each binary64 dim a.now x.now
        (fitting_of (dim * dim) (length a.now) dim (length x.now) (length out.old))
        out.old) }
{
    timed_blocks::apply(dim, a, x, out)
}

// The inverses of the blocks of a. Which of them are singular is not told: a refused block stays as given.
pub fn pierbramble_timed_inverse(dim: u32, a: &[f64], out: &mut [f64])
    ensures { out.new ≡ cond (outside_of 1 3 dim) out.old (inverse_each binary64 dim a.now
        (fitting_of (dim * dim) (length a.now) (dim * dim) (length out.old) (length out.old))
        out.old) }
{
    timed_blocks::inverse(dim, a, out)
}

// The roots of the values of x.
pub fn pierbramble_timed_square_root(x: &[f64], out: &mut [f64])
    ensures { out.new ≡ each_to (root_at binary64 x.now) (lesser_of (length x.now) (length out.old)) out.old }
{
    timed_blocks::square_root(x, out)
}

pub fn pierbramble_timed_add(dim: u32, u: &[f64], v: &[f64], out: &mut [f64])
    ensures { out.new ≡ cond (outside_of 1 3 dim) out.old (parts_of (added binary64 dim) dim u.now v.now out.old) }
{
    timed_blocks::add(dim, u, v, out)
}

pub fn pierbramble_timed_add_block(dim: u32, u: &[f64], v: &[f64], out: &mut [f64])
    ensures { out.new ≡ cond (outside_of 1 3 dim) out.old (parts_of (added binary64 (dim * dim)) (dim * dim) u.now v.now out.old) }
{
    timed_blocks::add_block(dim, u, v, out)
}

pub fn pierbramble_timed_subtract(dim: u32, u: &[f64], v: &[f64], out: &mut [f64])
    ensures { out.new ≡ cond (outside_of 1 3 dim) out.old (parts_of (subtracted binary64 dim) dim u.now v.now out.old) }
{
    timed_blocks::subtract(dim, u, v, out)
}

pub fn pierbramble_timed_subtract_block(dim: u32, u: &[f64], v: &[f64], out: &mut [f64])
    ensures { out.new ≡ cond (outside_of 1 3 dim) out.old (parts_of (subtracted binary64 (dim * dim)) (dim * dim) u.now v.now out.old) }
{
    timed_blocks::subtract_block(dim, u, v, out)
}

pub fn pierbramble_timed_scale(dim: u32, v: &[f64], s: f64, out: &mut [f64])
    ensures { out.new ≡ cond (outside_of 1 3 dim) out.old (parts_of (λ x _. scaled binary64 dim x s) dim v.now v.now out.old) }
{
    timed_blocks::scale(dim, v, s, out)
}
