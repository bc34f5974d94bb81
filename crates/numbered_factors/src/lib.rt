// The calls of the factors with N as a number, on words. An N other than 1, 2, 3 is 2 as a wrong length is.
// A call that refuses by another number than 9 changes nothing.
#![tactic(auto)]

ghost use Rattle.std.specs.Prelude.{◌≡◌, List, ◌++◌, cond, ◌||◌, length, Float};
ghost use Rattle.std.specs.Float.{binary64};
ghost use Rattle.answers.specs.Numbers.{refusal_number, number_of, row_of};
ghost use Rattle.answers.specs.Promise.{Ends};
ghost use Rattle.patterns.specs.Checks.{too_large};
ghost use Rattle.factors.specs.Copy.{copied_rows};
ghost use Rattle.factors.specs.Factor.{FactorValues, decompose};
ghost use Rattle.factors.specs.Solve.{solve};
ghost use Rattle.reducing.specs.Lent.{pattern_of, factor_of};
ghost use Rattle.copying.specs.Checks.{copy_checks};
ghost use Rattle.precondition.specs.Checks.{solve_checks};
ghost use Rattle.numbered.specs.Checks.{dim_checks};
ghost use Rattle.numbered_factors.specs.Calls.{Factored, copy_dim_checks};

use answers::{Answer, Refusal};
use blocks::{One, Three, Two};
use numbered::refusal;
use patterns::is_too_large;
use precondition::solve_preconditioning_vec as solve;

// vec becomes what the factor solves it to.
pub fn solve_preconditioning_vec(
    dim: u32,
    vec: &mut [f64],
    offsets: &[u32],
    columns: &[u32],
    splits: &[u32],
    diagonal: &[f64],
    values: &[f64],
) -> Answer
    ensures { Ends (dim_checks dim (length offsets.now) (length columns.now)
        ++ solve_checks dim offsets.now columns.now splits.now (length diagonal.now) (length values.now) (length vec.old)) result
        (solve binary64 dim (record { offsets = offsets.now; columns = columns.now; splits = splits.now }) (record { diagonal = diagonal.now; values = values.now }) vec.old)
        vec.old vec.new }
{
    match dim {
        1 => solve::<One>(vec, offsets, columns, splits, diagonal, values),
        2 => solve::<Two>(vec, offsets, columns, splits, diagonal, values),
        3 => solve::<Three>(vec, offsets, columns, splits, diagonal, values),
        _ => Err(refusal(offsets.len(), columns.len())),
    }
}

// The factor becomes its decomposition. At a pivot that can't be inverted it stops, and the answer is 9 with that row.
pub fn decompose(
    dim: u32,
    offsets: &[u32],
    columns: &[u32],
    splits: &[u32],
    diagonal: &mut [f64],
    values: &mut [f64],
) -> Answer
    ensures { Factored {A = FactorValues} binary64 (dim_checks dim (length offsets.now) (length columns.now)) dim (pattern_of offsets.now columns.now splits.now) (factor_of diagonal.old values.old) (number_of result) (row_of result)
        (decompose binary64 dim (pattern_of offsets.now columns.now splits.now) (factor_of diagonal.old values.old)).left
        (factor_of diagonal.old values.old) (factor_of diagonal.new values.new) }
{
    match dim {
        1 => decompose::decompose::<One>(offsets, columns, splits, diagonal, values),
        2 => decompose::decompose::<Two>(offsets, columns, splits, diagonal, values),
        3 => decompose::decompose::<Three>(offsets, columns, splits, diagonal, values),
        _ => Err(refusal(offsets.len(), columns.len())),
    }
}

// Why a copy at another N refuses: the sizes of both patterns are checked first.
fn copy_refusal(starts: usize, entries: usize, offsets: usize, columns: usize) -> Refusal
    ensures { refusal_number result ≡ cond (too_large starts entries || too_large offsets columns) 1 2 }
{
    if is_too_large(starts, entries) {
        return Refusal::Size;
    }
    refusal(offsets, columns)
}

// The factor's diagonal becomes A's, and each of its entries A's of that column, or +0.
pub fn copy_value(
    dim: u32,
    starts: &[u32],
    entries: &[u32],
    a_diagonal: &[f64],
    a_values: &[f64],
    offsets: &[u32],
    columns: &[u32],
    splits: &[u32],
    diagonal: &mut [f64],
    values: &mut [f64],
) -> Answer
    ensures { Ends {A = List Float × List Float} (copy_dim_checks dim (length starts.now) (length entries.now) (length offsets.now) (length columns.now)
        ++ copy_checks dim starts.now entries.now (length a_diagonal.now) (length a_values.now) offsets.now columns.now splits.now (length diagonal.old) (length values.old)) result
        (a_diagonal.now, copied_rows binary64 dim starts.now entries.now a_values.now offsets.now columns.now)
        (diagonal.old, values.old) (diagonal.new, values.new) }
{
    match dim {
        1 => copying::copy_value::<One>(
            starts, entries, a_diagonal, a_values, offsets, columns, splits, diagonal, values,
        ),
        2 => copying::copy_value::<Two>(
            starts, entries, a_diagonal, a_values, offsets, columns, splits, diagonal, values,
        ),
        3 => copying::copy_value::<Three>(
            starts, entries, a_diagonal, a_values, offsets, columns, splits, diagonal, values,
        ),
        _ => Err(copy_refusal(starts.len(), entries.len(), offsets.len(), columns.len())),
    }
}
