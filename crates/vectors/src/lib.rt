// Document 01's vtx2xn and `set_fix_dof_to_rhs_vector`, at each size, on lent slices of N values a row: every call checks its input.
// n is 1 to 4,096 rows. A call that refuses answers 1 or 2 and changes nothing.
#![tactic(auto)]

pub mod unchecked;

ghost use Rattle.std.specs.Prelude.{◌≡◌, length};
ghost use Rattle.std.specs.Float.{binary64};
ghost use Rattle.answers.specs.Numbers.{number_of};
ghost use Rattle.answers.specs.Checks.{first_of};
ghost use Rattle.answers.specs.Limits.{vector_checks};
ghost use Rattle.answers.specs.Promise.{Ends};
ghost use Rattle.vectors.specs.Checks.{pair_checks, long_flag_checks};
ghost use Rattle.vectors.specs.Vectors.{zeroed, copied, add_scaled, scale_add, fixed, dot_to};
ghost use Rattle.vectors.specs.DotAnswers.{Dotted};

use answers::{Answer, Refusal, check_vector};
use blocks::Size;

// The checks of one length.
fn check_rows<S: Size>(n: u32, length: usize) -> Answer
    ensures { number_of result ≡ first_of (vector_checks n S.DIM length) }
{
    check_vector(n, S::DIM as u32, length)
}

// The checks of two lengths: once the first is N*n, the second is compared with it.
fn check_pair<S: Size>(n: u32, first: usize, second: usize) -> Answer
    ensures { number_of result ≡ first_of (pair_checks n S.DIM first second) }
{
    check_rows::<S>(n, first)?;
    if second != first {
        return Err(Refusal::Shape);
    }
    Ok(())
}

// The same for flags that may be longer than the vector.
fn check_long_flags<S: Size>(n: u32, values: usize, flags: usize) -> Answer
    ensures { number_of result ≡ first_of (long_flag_checks n S.DIM values flags) }
{
    check_rows::<S>(n, values)?;
    if flags < values {
        return Err(Refusal::Shape);
    }
    Ok(())
}

// Each value becomes +0.
pub fn set_zero<S: Size>(n: u32, p: &mut [f64]) -> Answer
    ensures { Ends (vector_checks n S.DIM (length p.old)) result (zeroed binary64 p.old) p.old p.new }
{
    check_rows::<S>(n, p.len())?;
    unchecked::set_zero(p);
    Ok(())
}

// p becomes u.
pub fn copy<S: Size>(n: u32, p: &mut [f64], u: &[f64]) -> Answer
    ensures { Ends (pair_checks n S.DIM (length p.old) (length u.now)) result (copied u.now p.old) p.old p.new }
{
    check_pair::<S>(n, p.len(), u.len())?;
    unchecked::copy(p, u);
    Ok(())
}

// u becomes u + p * alpha.
pub fn add_scaled_vector<S: Size>(n: u32, u: &mut [f64], alpha: f64, p: &[f64]) -> Answer
    ensures { Ends (pair_checks n S.DIM (length u.old) (length p.now)) result (add_scaled binary64 alpha p.now u.old) u.old u.new }
{
    check_pair::<S>(n, u.len(), p.len())?;
    unchecked::add_scaled_vector(u, alpha, p);
    Ok(())
}

// p becomes r + p * beta.
pub fn scale_and_add_vec<S: Size>(n: u32, p: &mut [f64], beta: f64, r: &[f64]) -> Answer
    ensures { Ends (pair_checks n S.DIM (length p.old) (length r.now)) result (scale_add binary64 beta r.now p.old) p.old p.new }
{
    check_pair::<S>(n, p.len(), r.len())?;
    unchecked::scale_and_add_vec(p, beta, r);
    Ok(())
}

// Fixed values become +0.
pub fn set_fixed<S: Size>(n: u32, values: &mut [f64], flags: &[i32]) -> Answer
    ensures { Ends (pair_checks n S.DIM (length values.old) (length flags.now)) result (fixed binary64 flags.now values.old) values.old values.new }
{
    check_pair::<S>(n, values.len(), flags.len())?;
    unchecked::set_fixed(values, flags);
    Ok(())
}

// The same on a right side, where flags may be longer.
pub fn set_fix_dof_to_rhs_vector<S: Size>(n: u32, rhs: &mut [f64], flags: &[i32]) -> Answer
    ensures { Ends (long_flag_checks n S.DIM (length rhs.old) (length flags.now)) result (fixed binary64 flags.now rhs.old) rhs.old rhs.new }
{
    check_long_flags::<S>(n, rhs.len(), flags.len())?;
    unchecked::set_fixed(rhs, flags);
    Ok(())
}

// The dot product: each row's own sum is added to the running sum.
pub fn dot<S: Size>(n: u32, v0: &[f64], v1: &[f64]) -> Answer<f64>
    ensures { Dotted (pair_checks n S.DIM (length v0.now) (length v1.now)) (dot_to binary64 S.DIM v0.now v1.now n) result }
{
    check_pair::<S>(n, v0.len(), v1.len())?;
    Ok(unchecked::dot::<S>(n as usize, v0, v1))
}
