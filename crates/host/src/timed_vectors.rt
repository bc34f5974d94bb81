// The vector calls on values, for a benchmark: no bytes are coded, so that none are timed. Each is the public call at its N.
// What each answers is its number, 2 for an N other than 1, 2, 3 whose rows are in range.
ghost use Rattle.std.specs.Prelude.{[], ◌∷◌, length};
ghost use Rattle.std.specs.Float.{binary64};
ghost use Rattle.vectors.specs.Vectors.{zeroed, copied, add_scaled, scale_add, fixed, dot_to};
ghost use Rattle.vector_bytes.specs.Checks.{words, call_checks};
ghost use Rattle.outcomes.specs.Calls.{Finished};
ghost use Rattle.outcomes.specs.Sums.{FinishedSum};

use answers::Numbered;
use outcomes::{Summed, summed_of};

pub fn pierbramble_timed_set_zero(dim: u32, n: u32, p: &mut [f64]) -> u32
    ensures { Finished (call_checks n dim (words 1 (length p.old) ∷ [])) result (zeroed binary64 p.old) p.old p.new }
{
    vector_bytes::numbered::set_zero(dim, n, p).number()
}

pub fn pierbramble_timed_copy(dim: u32, n: u32, p: &mut [f64], u: &[f64]) -> u32
    ensures { Finished (call_checks n dim (words 1 (length p.old) ∷ words 1 (length u.now) ∷ [])) result
        (copied u.now p.old) p.old p.new }
{
    vector_bytes::numbered::copy(dim, n, p, u).number()
}

pub fn pierbramble_timed_add_scaled_vector(
    dim: u32,
    n: u32,
    u: &mut [f64],
    alpha: f64,
    p: &[f64],
) -> u32
    ensures { Finished (call_checks n dim (words 1 (length u.old) ∷ words 1 (length p.now) ∷ [])) result
        (add_scaled binary64 alpha p.now u.old) u.old u.new }
{
    vector_bytes::numbered::add_scaled_vector(dim, n, u, alpha, p).number()
}

pub fn pierbramble_timed_scale_and_add_vec(
    dim: u32,
    n: u32,
    p: &mut [f64],
    beta: f64,
    r: &[f64],
) -> u32
    ensures { Finished (call_checks n dim (words 1 (length p.old) ∷ words 1 (length r.now) ∷ [])) result
        (scale_add binary64 beta r.now p.old) p.old p.new }
{
    vector_bytes::numbered::scale_and_add_vec(dim, n, p, beta, r).number()
}

pub fn pierbramble_timed_set_fixed(dim: u32, n: u32, values: &mut [f64], flags: &[i32]) -> u32
    ensures { Finished (call_checks n dim (words 1 (length values.old) ∷ words 1 (length flags.now) ∷ [])) result
        (fixed binary64 flags.now values.old) values.old values.new }
{
    vector_bytes::numbered::set_fixed(dim, n, values, flags).number()
}

pub fn pierbramble_timed_dot(dim: u32, n: u32, v0: &[f64], v1: &[f64]) -> Summed
    ensures { FinishedSum binary64 (call_checks n dim (words 1 (length v0.now) ∷ words 1 (length v1.now) ∷ []))
        (dot_to binary64 dim v0.now v1.now n) result }
{
    summed_of(vector_bytes::numbered::dot(dim, n, v0, v1))
}
