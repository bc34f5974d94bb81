// The checks of a factor one after the other: for the crates above, which make check 1 of the lengths themselves.
// These functions ask that of their callers, so that no user calls them.
ghost use Rattle.std.specs.Prelude.{◌≡◌, true, false, ◌≤◌, length};
ghost use Rattle.answers.specs.Checks.{first_of};
ghost use Rattle.answers.specs.Numbers.{number_of};
ghost use Rattle.patterns.specs.Pattern.{rows_of, valid_pattern, valid_splits};
ghost use Rattle.patterns.specs.Checks.{too_large};
ghost use Rattle.factor_check.specs.Checks.{wrong_factor, row_checks};
ghost use Rattle.factor_check.specs.Steps.{one_if, count_to, falls_at, Apart, RightRow, RightRows};

use answers::{Answer, Refusal};
use blocks::{Size, block_size};
use patterns::unchecked::{has_valid_splits, is_valid_pattern};

fn wide(x: u32) -> usize
    ensures { result ≡ x }
{
    x as usize
}

// Whether a length is wrong.
pub fn is_wrong_factor<S: Size>(
    rows: usize,
    columns: usize,
    splits: usize,
    diagonal: usize,
    values: usize,
) -> bool
    requires { (rows ≤ 4096) × (columns ≤ 65535) }
    ensures { result ≡ wrong_factor S.DIM rows columns splits diagonal values }
{
    let size = block_size::<S>();
    if values != size * columns {
        return true;
    }
    if diagonal != size * rows {
        return true;
    }
    splits != rows
}

// 1 for a test that holds: sums of these count without a branch.
fn one_if(test: bool) -> u32
    ensures { result ≡ one_if test }
{
    if test { 1 } else { 0 }
}

// How many steps from a column to the next do not rise. The loop has no way out in the middle: several are then compared at once.
fn falls(columns: &[u32]) -> u32
    requires { length columns.now ≤ 65535 }
    ensures { result ≡ count_to (falls_at columns.now) (length columns.now) }
{
    let mut count = 0;
    let mut e = 0;
    while e + 1 < columns.len() {
        count += one_if(columns[e] >= columns[e + 1]);
        e += 1;
    }
    count
}

// Whether a split lies within its row and the columns beside it, where there are any, are on their sides of the row's own.
fn is_apart(columns: &[u32], own: u32, from: usize, split: usize, to: usize) -> bool
    requires { to ≤ length columns.now }
    ensures { result ≡ true → Apart own from split to columns.now }
{
    if split < from {
        return false;
    }
    if split > to {
        return false;
    }
    if split > from {
        if columns[split - 1] >= own {
            return false;
        }
    }
    if split < to {
        return columns[split] > own;
    }
    true
}

// A row of any kind, as `row_falls` has it.
fn other_row_falls(columns: &[u32], own: u32, n: u32, from: usize, split: usize, to: usize) -> u32
    ensures { result ≤ 1 → RightRow n own from split to columns.now result }
{
    if to > columns.len() {
        return 2;
    }
    if !is_apart(columns, own, from, split, to) {
        return 2;
    }
    if from == to {
        return 0;
    }
    if columns[to - 1] >= n {
        return 2;
    }
    if to == columns.len() {
        return 0;
    }
    one_if(columns[to - 1] >= columns[to])
}

// 1 if the step over the end of a row does not rise, and 0 else; 2 if the row is not right, or may not be.
// Most rows have columns on both sides of their split and rows after them, and one branch is enough for those.
fn row_falls(columns: &[u32], own: u32, n: u32, from: usize, split: usize, to: usize) -> u32
    ensures { result ≤ 1 → RightRow n own from split to columns.now result }
{
    if from < split {
        if split < to {
            if to < columns.len() {
                let last = columns[to - 1];
                let right = (columns[split - 1] < own) & (columns[split] > own) & (last < n);
                if !right {
                    return 2;
                }
                return one_if(last >= columns[to]);
            }
        }
    }
    other_row_falls(columns, own, n, from, split, to)
}

// Whether all rows are right and no step does not rise but those over the ends of rows, where `all` counts the steps of all columns that do not.
fn are_rows_right(offsets: &[u32], columns: &[u32], splits: &[u32], all: u32) -> bool
    requires { (rows_of offsets.now ≤ 4096) × (length splits.now ≡ rows_of offsets.now) }
    ensures { result ≡ true → RightRows offsets.now columns.now splits.now all }
{
    let rows = splits.len();
    let n = rows as u32;
    let mut count: u32 = 0;
    let mut i = 0;
    while i < rows {
        let from = wide(offsets[i]);
        let split = wide(splits[i]);
        let to = wide(offsets[i + 1]);
        let more = row_falls(columns, i as u32, n, from, split, to);
        if more > 1 {
            return false;
        }
        count += more;
        i += 1;
    }
    count == all
}

// Whether the quick way finds a factor right. If not, it may be right all the same.
fn is_surely_right(offsets: &[u32], columns: &[u32], splits: &[u32]) -> bool
    requires { (too_large (length offsets.now) (length columns.now) ≡ false) × (length splits.now ≡ rows_of offsets.now) }
    ensures { result ≡ true → (valid_pattern offsets.now columns.now ≡ true) × (valid_splits offsets.now columns.now splits.now ≡ true) }
{
    if offsets[0] != 0 {
        return false;
    }
    if wide(offsets[offsets.len() - 1]) != columns.len() {
        return false;
    }
    are_rows_right(offsets, columns, splits, falls(columns))
}

// 3, of the pattern, then 11, of its rows and splits. A factor that is right is found so by the quick way; the slow one finds which rule is broken.
pub fn check_rows(offsets: &[u32], columns: &[u32], splits: &[u32]) -> Answer
    requires { (too_large (length offsets.now) (length columns.now) ≡ false) × (length splits.now ≡ rows_of offsets.now) }
    ensures { number_of result ≡ first_of (row_checks offsets.now columns.now splits.now) }
{
    if is_surely_right(offsets, columns, splits) {
        return Ok(());
    }
    if !is_valid_pattern(offsets, columns) {
        return Err(Refusal::Pattern);
    }
    if !has_valid_splits(offsets, columns, splits) {
        return Err(Refusal::Split);
    }
    Ok(())
}
