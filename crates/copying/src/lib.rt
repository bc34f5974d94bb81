// Document 01's `copy_value`: the values of a matrix copied into a factor, each call checked, at each size.
// A is lent as starts and entries, its diagonal and its values; the factor as offsets, columns and splits, its diagonal and its values. A call that refuses changes nothing.
#![tactic(auto)]

pub mod unchecked;

ghost use Rattle.std.specs.Prelude.{List, length, Float};
ghost use Rattle.std.specs.Float.{binary64};
ghost use Rattle.answers.specs.Promise.{Ends};
ghost use Rattle.factors.specs.Copy.{copied_rows};
ghost use Rattle.copying.specs.Checks.{copy_checks};

use answers::Answer;
use blocks::Size;
use unchecked::check_copy;

// The factor's diagonal becomes A's, and each of its entries A's of that column, or +0.
pub fn copy_value<S: Size>(
    starts: &[u32],
    entries: &[u32],
    a_diagonal: &[f64],
    a_values: &[f64],
    offsets: &[u32],
    columns: &[u32],
    splits: &[u32],
    diagonal: &mut [f64],
    values: &mut [f64],
) -> Answer
    ensures { Ends {A = List Float × List Float} (copy_checks S.DIM starts.now entries.now (length a_diagonal.now) (length a_values.now) offsets.now columns.now splits.now (length diagonal.old) (length values.old)) result
        (a_diagonal.now, copied_rows binary64 S.DIM starts.now entries.now a_values.now offsets.now columns.now)
        (diagonal.old, values.old) (diagonal.new, values.new) }
{
    check_copy::<S>(
        starts,
        entries,
        a_diagonal.len(),
        a_values.len(),
        offsets,
        columns,
        splits,
        diagonal.len(),
        values.len(),
    )?;
    copy_rows::unchecked::copy_value::<S>(
        diagonal, values, starts, entries, a_diagonal, a_values, offsets, columns,
    );
    Ok(())
}
