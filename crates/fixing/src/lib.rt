// Document 01's `set_fixed_bc`, each call checked, at each size.
// A matrix is lent as offsets, columns, the values of its entries and those of its diagonal; the flags are N to a row.
#![tactic(auto)]

pub mod unchecked;

ghost use Rattle.std.specs.Prelude.{List, length, Float};
ghost use Rattle.std.specs.Float.{binary64};
ghost use Rattle.answers.specs.Promise.{Ends};
ghost use Rattle.patterns.specs.Pattern.{rows_of};
ghost use Rattle.matrix.specs.Checks.{vector_checks};
ghost use Rattle.fixing.specs.Fixing.{fix_diagonal, fix_values};

use answers::{Answer, Refusal};
use blocks::Size;
use matrix::unchecked::check_vectors;
use patterns::unchecked::is_valid_pattern;

// The checks, then the work.
pub fn set_fixed_bc<S: Size>(
    val_dia: f64,
    flags: &[i32],
    diagonal: &mut [f64],
    values: &mut [f64],
    offsets: &[u32],
    columns: &[u32],
) -> Answer
    ensures { Ends {A = List Float × List Float} (vector_checks S.DIM offsets.now columns.now (length values.old) (length diagonal.old) (length flags.now) (length flags.now)) result (fix_diagonal binary64 S.DIM val_dia flags.now (rows_of offsets.now) diagonal.old, fix_values binary64 S.DIM flags.now offsets.now columns.now values.old) (diagonal.old, values.old) (diagonal.new, values.new) }
{
    check_vectors::<S>(
        offsets.len(),
        columns.len(),
        values.len(),
        diagonal.len(),
        flags.len(),
        flags.len(),
    )?;
    if !is_valid_pattern(offsets, columns) {
        return Err(Refusal::Pattern);
    }
    unchecked::set_fixed_bc::<S>(diagonal, values, val_dia, flags, offsets, columns);
    Ok(())
}
