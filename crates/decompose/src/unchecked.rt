// `decompose` without checks, at each size: rows are reduced, their pivots inverted, and their upper entries multiplied.
// These functions ask that the factor is valid and that the lengths fit it, so that no user calls them.
ghost use Rattle.std.specs.Prelude.{◌≡◌, ◌*◌, ◌≤◌, ◌<◌, length};
ghost use Rattle.std.specs.Float.{binary64};
ghost use Rattle.base.specs.Iterate.{iterate};
ghost use Rattle.answers.specs.Checks.{first_of};
ghost use Rattle.answers.specs.Numbers.{number_of};
ghost use Rattle.blocks.specs.Lent.{block_at};
ghost use Rattle.lent.specs.Steps.{Within, Inverting, inverse_at};
ghost use Rattle.patterns.specs.Pattern.{rows_of};
ghost use Rattle.factors.specs.Factor.{Decomposed, multiply_entry, decompose};
ghost use Rattle.reducing.specs.Lent.{pattern_of, factor_of};
ghost use Rattle.factor_check.specs.Fits.{FactorFits};
ghost use Rattle.decompose.specs.Promise.{earlier_checks};
ghost use Rattle.decompose.specs.Steps.{stopped_at};

use answers::{Answer, Refusal};
use blocks::Size;
use blocks::unchecked::{block_at, put_block};
use factor_check::unchecked::{check_rows, is_wrong_factor};
use patterns::is_too_large;
use reducing::unchecked::reduce_row;

// The pivot of row i, inverted. It answers 9 if that can't be done, and then the pivot stays.
#[tactic(auto, unfolding(lent::specs::Steps::inverse_at, lent::specs::Steps::inverse_or))]
fn invert_pivot<S: Size>(diagonal: &mut [f64], i: usize) -> Answer
    requires { Within (S.DIM * S.DIM) i (length diagonal.old) }
    ensures { (Inverting binary64 S.DIM (block_at S.DIM diagonal.old i) result) × (diagonal.new ≡ inverse_at binary64 S.DIM diagonal.old i i diagonal.old) }
{
    let inverse = S::inverse(block_at::<S>(diagonal, i))?;
    put_block::<S>(diagonal, i, inverse);
    Ok(())
}

// The upper entries of row i, from the first to before the end, multiplied from the left by the row's block.
fn multiply_row<S: Size>(values: &mut [f64], diagonal: &[f64], i: usize, first: usize, end: usize)
    requires { (Within (S.DIM * S.DIM) i (length diagonal.now)) × (first ≤ end) × (S.DIM * S.DIM * end ≤ length values.old) }
    ensures { factor_of diagonal.now values.new ≡ iterate (multiply_entry binary64 S.DIM i) first end (factor_of diagonal.now values.old) }
{
    let pivot = block_at::<S>(diagonal, i);
    for g in first..end {
        let all = S::product(pivot, block_at::<S>(values, g));
        put_block::<S>(values, g, all);
    }
}

// All rows in order. It answers the row of the first pivot that can't be inverted, or the number of rows if there is none.
pub fn decompose<S: Size>(
    diagonal: &mut [f64],
    values: &mut [f64],
    offsets: &[u32],
    columns: &[u32],
    splits: &[u32],
) -> usize
    requires { FactorFits S.DIM offsets.now columns.now splits.now (length diagonal.old) (length values.old) }
    ensures { ◌≡◌ {A = Decomposed} (record { left = factor_of diagonal.new values.new; stopped = stopped_at (rows_of offsets.now) result }) (decompose binary64 S.DIM (pattern_of offsets.now columns.now splits.now) (factor_of diagonal.old values.old)) }
{
    let mut marks = [0u8; 4096];
    let n = offsets.len() - 1;
    for i in 0..n {
        reduce_row::<S>(diagonal, values, &mut marks, offsets, columns, splits, i);
        if invert_pivot::<S>(diagonal, i).is_err() {
            return i;
        }
        let first = splits[i] as usize;
        let end = offsets[i + 1] as usize;
        multiply_row::<S>(values, diagonal, i, first, end);
    }
    n
}

// The checks before the first word is written: 1 and 2 by the lengths, then 3, of the pattern, and 11, of its rows and splits.
pub fn check_decompose<S: Size>(
    offsets: &[u32],
    columns: &[u32],
    splits: &[u32],
    diagonal: usize,
    values: usize,
) -> Answer
    ensures { number_of result ≡ first_of (earlier_checks S.DIM offsets.now columns.now splits.now diagonal values) }
{
    if is_too_large(offsets.len(), columns.len()) {
        return Err(Refusal::Size);
    }
    let rows = offsets.len() - 1;
    if is_wrong_factor::<S>(rows, columns.len(), splits.len(), diagonal, values) {
        return Err(Refusal::Shape);
    }
    check_rows(offsets, columns, splits)
}
