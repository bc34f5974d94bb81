// `set_fixed_bc` without checks: one loop over the rows for each part, and the work on a row at each size.
// These functions ask that the pattern is valid and that the lengths fit it, so that no user calls them.
ghost use Rattle.std.specs.Prelude.{◌≡◌, Bool, cond, ◌||◌, ◌*◌, length};
ghost use Rattle.std.specs.Float.{binary64};
ghost use Rattle.blocks.specs.Block.{plus_zero};
ghost use Rattle.lent.specs.Steps.{Within};
ghost use Rattle.patterns.specs.Pattern.{rows_of};
ghost use Rattle.vectors.specs.Vectors.{fixes};
ghost use Rattle.matrix.specs.Fits.{MatrixFits};
ghost use Rattle.fixing.specs.Fixing.{is_fixed, fix_diagonal_at, fix_diagonal, fix_entry_at, fix_entries, fix_values};
ghost use Rattle.fixing.specs.Steps.{any_to, RowFits};

use blocks::Size;
use blocks::unchecked::{Lent, block_at, put_block};

// Any nonzero flag fixes.
#[tactic(auto, using(crate::proofs::FlagLaws::bits_fix))]
fn fixes(flag: i32) -> bool
    ensures { result ≡ fixes flag }
{
    flag != 0
}

// Whether a value of row i is fixed.
fn is_any_fixed<S: Size>(flags: &[i32], i: usize) -> bool
    requires { Within S.DIM i (length flags.now) }
    ensures { result ≡ any_to S.DIM (is_fixed S.DIM flags.now i) }
{
    let first = S::DIM * i;
    let mut any = false;
    for r in 0..S::DIM {
        any = any | fixes(flags[first + r]);
    }
    any
}

// What is left of a value of an entry, by the flags of its row and of its column.
fn kept(row: i32, column: i32, x: f64) -> f64
    ensures { result ≡ cond (fixes row || fixes column) (plus_zero binary64) x }
{
    if fixes(row) || fixes(column) {
        return 0.0;
    }
    x
}

// What is left of a value of a diagonal block: a fixed one on the diagonal becomes val_dia.
fn kept_or(on_diagonal: bool, val_dia: f64, row: i32, column: i32, x: f64) -> f64
    ensures { result ≡ cond on_diagonal (cond (fixes row) val_dia x) (cond (fixes row || fixes column) (plus_zero binary64) x) }
{
    if !on_diagonal {
        return kept(row, column, x);
    }
    if fixes(row) { val_dia } else { x }
}

// The entry at place e, whose row is i and whose column is j.
fn fix_entry<S: Size>(values: &mut [f64], e: usize, flags: &[i32], i: usize, j: usize)
    requires { (Within (S.DIM * S.DIM) e (length values.old)) × (Within S.DIM i (length flags.now)) × (Within S.DIM j (length flags.now)) }
    ensures { values.new ≡ fix_entry_at binary64 S.DIM (is_fixed S.DIM flags.now i) (is_fixed S.DIM flags.now j) e values.old }
{
    let n = S::DIM;
    let row = n * i;
    let column = n * j;
    let new = block_at::<S>(values, e).map(|k, x| {
        let r = row + k % n;
        let c = column + k / n;
        kept(flags[r], flags[c], x)
    });
    put_block::<S>(values, e, new);
}

// The entries of row i, of which the first is at place `first`. Where no value of its row or of its column is fixed, nothing is written: on most plates that is nearly all.
fn fix_entries<S: Size>(values: &mut [f64], flags: &[i32], i: usize, row: &[u32], first: usize)
    requires { RowFits S.DIM i row.now first (length values.old) (length flags.now) }
    ensures { values.new ≡ fix_entries binary64 S.DIM flags.now i row.now first values.old }
{
    let here = is_any_fixed::<S>(flags, i);
    for (k, column) in row.iter().enumerate() {
        let j = *column as usize;
        if here || is_any_fixed::<S>(flags, j) {
            fix_entry::<S>(values, first + k, flags, i, j);
        }
    }
}

// The entries of all rows.
fn fix_values<S: Size>(values: &mut [f64], flags: &[i32], offsets: &[u32], columns: &[u32])
    requires { (MatrixFits S.DIM offsets.now columns.now (length values.old) (S.DIM * S.DIM * rows_of offsets.now)) × (length flags.now ≡ S.DIM * rows_of offsets.now) }
    ensures { values.new ≡ fix_values binary64 S.DIM flags.now offsets.now columns.now values.old }
{
    for i in 0..offsets.len() - 1 {
        let from = offsets[i] as usize;
        let to = offsets[i + 1] as usize;
        fix_entries::<S>(values, flags, i, &columns[from..to], from);
    }
}

// Block i of the diagonal, likewise.
fn fix_diagonal_at<S: Size>(diagonal: &mut [f64], i: usize, val_dia: f64, flags: &[i32])
    requires { (Within (S.DIM * S.DIM) i (length diagonal.old)) × (Within S.DIM i (length flags.now)) }
    ensures { diagonal.new ≡ fix_diagonal_at binary64 S.DIM val_dia (is_fixed S.DIM flags.now i) i diagonal.old }
{
    if !is_any_fixed::<S>(flags, i) {
        return;
    }
    let n = S::DIM;
    let first = n * i;
    let new = block_at::<S>(diagonal, i).map(|k, x| {
        let r = k % n;
        let c = k / n;
        kept_or(r == c, val_dia, flags[first + r], flags[first + c], x)
    });
    put_block::<S>(diagonal, i, new);
}

// The diagonal of all rows.
fn fix_diagonal<S: Size>(diagonal: &mut [f64], rows: usize, val_dia: f64, flags: &[i32])
    requires { (length diagonal.old ≡ S.DIM * S.DIM * rows) × (length flags.now ≡ S.DIM * rows) }
    ensures { diagonal.new ≡ fix_diagonal binary64 S.DIM val_dia flags.now rows diagonal.old }
{
    for i in 0..rows {
        fix_diagonal_at::<S>(diagonal, i, val_dia, flags);
    }
}

// The diagonal and the entries.
pub fn set_fixed_bc<S: Size>(
    diagonal: &mut [f64],
    values: &mut [f64],
    val_dia: f64,
    flags: &[i32],
    offsets: &[u32],
    columns: &[u32],
)
    requires { (MatrixFits S.DIM offsets.now columns.now (length values.old) (length diagonal.old)) × (length flags.now ≡ S.DIM * rows_of offsets.now) }
    ensures { (diagonal.new ≡ fix_diagonal binary64 S.DIM val_dia flags.now (rows_of offsets.now) diagonal.old) × (values.new ≡ fix_values binary64 S.DIM flags.now offsets.now columns.now values.old) }
{
    fix_diagonal::<S>(diagonal, offsets.len() - 1, val_dia, flags);
    fix_values::<S>(values, flags, offsets, columns);
}
