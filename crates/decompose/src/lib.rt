// Document 01's `decompose`, each call checked, at each size.
// A factor is lent as offsets, columns, splits, the values of its diagonal and those of its entries. A call that refuses by another number than 9 changes nothing.
#![tactic(auto)]

pub mod unchecked;

ghost use Rattle.std.specs.Float.{binary64};
ghost use Rattle.reducing.specs.Lent.{pattern_of, factor_of};
ghost use Rattle.decompose.specs.Promise.{Decomposes};

use answers::{Answer, Refusal};
use blocks::Size;
use unchecked::check_decompose;

// The factor becomes its decomposition. At a pivot that can't be inverted it stops, and the answer is 9 with that row.
pub fn decompose<S: Size>(
    offsets: &[u32],
    columns: &[u32],
    splits: &[u32],
    diagonal: &mut [f64],
    values: &mut [f64],
) -> Answer
    ensures { Decomposes binary64 S.DIM (pattern_of offsets.now columns.now splits.now) (factor_of diagonal.old values.old) result (factor_of diagonal.new values.new) }
{
    check_decompose::<S>(offsets, columns, splits, diagonal.len(), values.len())?;
    let row = unchecked::decompose::<S>(diagonal, values, offsets, columns, splits);
    if row < offsets.len() - 1 {
        return Err(Refusal::Singular(row as u32));
    }
    Ok(())
}
