// The factor's calls on words, for a benchmark: no bytes are coded, so that none are timed. Each is the public call at its N.
// What each answers is its number, and `decompose` an outcome; 2 for an N other than 1, 2, 3 whose pattern is not too large.
ghost use Rattle.std.specs.Prelude.{List, ◌++◌, length, Float};
ghost use Rattle.std.specs.Float.{binary64};
ghost use Rattle.factors.specs.Copy.{copied_rows};
ghost use Rattle.factors.specs.Factor.{FactorValues, decompose};
ghost use Rattle.factors.specs.Solve.{solve};
ghost use Rattle.reducing.specs.Lent.{pattern_of, factor_of};
ghost use Rattle.copying.specs.Checks.{copy_checks};
ghost use Rattle.precondition.specs.Checks.{solve_checks};
ghost use Rattle.numbered.specs.Checks.{dim_checks};
ghost use Rattle.numbered_factors.specs.Calls.{Factored, copy_dim_checks};
ghost use Rattle.outcomes.specs.Calls.{Finished};

use answers::Numbered;
use outcomes::{Outcome, outcome_of};

#[unsafe(no_mangle)]
pub extern "C" fn pierbramble_timed_solve_preconditioning_vec(
    dim: u32,
    vec: &mut [f64],
    offsets: &[u32],
    columns: &[u32],
    splits: &[u32],
    diagonal: &[f64],
    values: &[f64],
) -> u32
    ensures { Finished (dim_checks dim (length offsets.now) (length columns.now)
        ++ solve_checks dim offsets.now columns.now splits.now (length diagonal.now) (length values.now) (length vec.old)) result
        (solve binary64 dim (pattern_of offsets.now columns.now splits.now) (factor_of diagonal.now values.now) vec.old)
        vec.old vec.new }
{
    numbered_factors::solve_preconditioning_vec(
        dim, vec, offsets, columns, splits, diagonal, values,
    ).number()
}

#[unsafe(no_mangle)]
pub extern "C" fn pierbramble_timed_decompose(
    dim: u32,
    offsets: &[u32],
    columns: &[u32],
    splits: &[u32],
    diagonal: &mut [f64],
    values: &mut [f64],
) -> Outcome
    ensures { Factored {A = FactorValues} binary64 (dim_checks dim (length offsets.now) (length columns.now)) dim (pattern_of offsets.now columns.now splits.now) (factor_of diagonal.old values.old) result.number result.row
        (decompose binary64 dim (pattern_of offsets.now columns.now splits.now) (factor_of diagonal.old values.old)).left
        (factor_of diagonal.old values.old) (factor_of diagonal.new values.new) }
{
    outcome_of(numbered_factors::decompose(dim, offsets, columns, splits, diagonal, values))
}

#[unsafe(no_mangle)]
pub extern "C" fn pierbramble_timed_copy_value(
    dim: u32,
    starts: &[u32],
    entries: &[u32],
    a_diagonal: &[f64],
    a_values: &[f64],
    offsets: &[u32],
    columns: &[u32],
    splits: &[u32],
    diagonal: &mut [f64],
    values: &mut [f64],
) -> u32
    ensures { Finished {A = List Float × List Float} (copy_dim_checks dim (length starts.now) (length entries.now) (length offsets.now) (length columns.now)
        ++ copy_checks dim starts.now entries.now (length a_diagonal.now) (length a_values.now) offsets.now columns.now splits.now (length diagonal.old) (length values.old)) result
        (a_diagonal.now, copied_rows binary64 dim starts.now entries.now a_values.now offsets.now columns.now)
        (diagonal.old, values.old) (diagonal.new, values.new) }
{
    numbered_factors::copy_value(
        dim, starts, entries, a_diagonal, a_values, offsets, columns, splits, diagonal, values,
    )
    .number()
}
