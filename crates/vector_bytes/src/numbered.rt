// The calls of `vectors` with N as a number. The length of a slice is checked at that N, and an N other than 1, 2, 3 is 2 as a wrong length is.
// A call that refuses answers 1 or 2 and changes nothing.
ghost use Rattle.std.specs.Prelude.{◌≡◌, [], ◌∷◌, cond, length};
ghost use Rattle.std.specs.Float.{binary64};
ghost use Rattle.answers.specs.Numbers.{refusal_number};
ghost use Rattle.answers.specs.Limits.{rows_out_of_range};
ghost use Rattle.answers.specs.Promise.{Ends};
ghost use Rattle.vectors.specs.Vectors.{zeroed, copied, add_scaled, scale_add, fixed, dot_to};
ghost use Rattle.vectors.specs.DotAnswers.{Dotted};
ghost use Rattle.vector_bytes.specs.Checks.{words, long_words, call_checks};

use answers::{Answer, Refusal, Rows};
use blocks::{One, Three, Two};

// Why a call at another N refuses: its rows are checked first.
fn refusal(n: u32) -> Refusal
    ensures { refusal_number result ≡ cond (rows_out_of_range n) 1 2 }
{
    if Rows(n as usize).out_of_range() {
        return Refusal::Size;
    }
    Refusal::Shape
}

// Each value becomes +0.
pub fn set_zero(dim: u32, n: u32, p: &mut [f64]) -> Answer
    ensures { Ends (call_checks n dim (words 1 (length p.old) ∷ [])) result (zeroed binary64 p.old) p.old p.new }
{
    match dim {
        1 => vectors::set_zero::<One>(n, p),
        2 => vectors::set_zero::<Two>(n, p),
        3 => vectors::set_zero::<Three>(n, p),
        _ => Err(refusal(n)),
    }
}

// p becomes u.
pub fn copy(dim: u32, n: u32, p: &mut [f64], u: &[f64]) -> Answer
    ensures { Ends (call_checks n dim (words 1 (length p.old) ∷ words 1 (length u.now) ∷ [])) result (copied u.now p.old) p.old p.new }
{
    match dim {
        1 => vectors::copy::<One>(n, p, u),
        2 => vectors::copy::<Two>(n, p, u),
        3 => vectors::copy::<Three>(n, p, u),
        _ => Err(refusal(n)),
    }
}

// u becomes u + p * alpha.
pub fn add_scaled_vector(dim: u32, n: u32, u: &mut [f64], alpha: f64, p: &[f64]) -> Answer
    ensures { Ends (call_checks n dim (words 1 (length u.old) ∷ words 1 (length p.now) ∷ [])) result (add_scaled binary64 alpha p.now u.old) u.old u.new }
{
    match dim {
        1 => vectors::add_scaled_vector::<One>(n, u, alpha, p),
        2 => vectors::add_scaled_vector::<Two>(n, u, alpha, p),
        3 => vectors::add_scaled_vector::<Three>(n, u, alpha, p),
        _ => Err(refusal(n)),
    }
}

// p becomes r + p * beta.
pub fn scale_and_add_vec(dim: u32, n: u32, p: &mut [f64], beta: f64, r: &[f64]) -> Answer
    ensures { Ends (call_checks n dim (words 1 (length p.old) ∷ words 1 (length r.now) ∷ [])) result (scale_add binary64 beta r.now p.old) p.old p.new }
{
    match dim {
        1 => vectors::scale_and_add_vec::<One>(n, p, beta, r),
        2 => vectors::scale_and_add_vec::<Two>(n, p, beta, r),
        3 => vectors::scale_and_add_vec::<Three>(n, p, beta, r),
        _ => Err(refusal(n)),
    }
}

// Fixed values become +0.
pub fn set_fixed(dim: u32, n: u32, values: &mut [f64], flags: &[i32]) -> Answer
    ensures { Ends (call_checks n dim (words 1 (length values.old) ∷ words 1 (length flags.now) ∷ [])) result (fixed binary64 flags.now values.old) values.old values.new }
{
    match dim {
        1 => vectors::set_fixed::<One>(n, values, flags),
        2 => vectors::set_fixed::<Two>(n, values, flags),
        3 => vectors::set_fixed::<Three>(n, values, flags),
        _ => Err(refusal(n)),
    }
}

// The same on a right side, where flags may be longer.
pub fn set_fix_dof_to_rhs_vector(dim: u32, n: u32, rhs: &mut [f64], flags: &[i32]) -> Answer
    ensures { Ends (call_checks n dim (words 1 (length rhs.old) ∷ long_words 1 (length flags.now) ∷ [])) result (fixed binary64 flags.now rhs.old) rhs.old rhs.new }
{
    match dim {
        1 => vectors::set_fix_dof_to_rhs_vector::<One>(n, rhs, flags),
        2 => vectors::set_fix_dof_to_rhs_vector::<Two>(n, rhs, flags),
        3 => vectors::set_fix_dof_to_rhs_vector::<Three>(n, rhs, flags),
        _ => Err(refusal(n)),
    }
}

// The dot product.
pub fn dot(dim: u32, n: u32, v0: &[f64], v1: &[f64]) -> Answer<f64>
    ensures { Dotted (call_checks n dim (words 1 (length v0.now) ∷ words 1 (length v1.now) ∷ [])) (dot_to binary64 dim v0.now v1.now n) result }
{
    match dim {
        1 => vectors::dot::<One>(n, v0, v1),
        2 => vectors::dot::<Two>(n, v0, v1),
        3 => vectors::dot::<Three>(n, v0, v1),
        _ => Err(refusal(n)),
    }
}
