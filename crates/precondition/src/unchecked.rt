// The checks of the solve, one after the other.
// No user calls them, since a call on a factor checks more than one of them.
ghost use Rattle.std.specs.Prelude.{◌≡◌};
ghost use Rattle.answers.specs.Checks.{first_of};
ghost use Rattle.answers.specs.Numbers.{number_of};
ghost use Rattle.precondition.specs.Checks.{solve_lengths, solve_checks};

use answers::{Answer, Refusal};
use blocks::Size;
use factor_check::unchecked::{check_rows, is_wrong_factor};
use patterns::is_too_large;

// The checks by the lengths: 1, then 2.
fn check_lengths<S: Size>(
    offsets: usize,
    columns: usize,
    splits: usize,
    diagonal: usize,
    values: usize,
    vec: usize,
) -> Answer
    ensures { number_of result ≡ first_of (solve_lengths S.DIM offsets columns splits diagonal values vec) }
{
    if is_too_large(offsets, columns) {
        return Err(Refusal::Size);
    }
    let rows = offsets - 1;
    if is_wrong_factor::<S>(rows, columns, splits, diagonal, values) {
        return Err(Refusal::Shape);
    }
    if vec != S::DIM * rows {
        return Err(Refusal::Shape);
    }
    Ok(())
}

// All checks: then 3, of the pattern, and 11, of its rows and splits.
pub fn check_solve<S: Size>(
    offsets: &[u32],
    columns: &[u32],
    splits: &[u32],
    diagonal: usize,
    values: usize,
    vec: usize,
) -> Answer
    ensures { number_of result ≡ first_of (solve_checks S.DIM offsets.now columns.now splits.now diagonal values vec) }
{
    check_lengths::<S>(
        offsets.len(),
        columns.len(),
        splits.len(),
        diagonal,
        values,
        vec,
    )?;
    check_rows(offsets, columns, splits)
}
