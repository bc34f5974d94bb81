// Document 01's `initialize_iluk`: the pattern of an incomplete factor, filled to level k.
// The pattern A is lent as `starts`, its offsets, and `entries`, its columns. `levels` and `row` are work.
#![tactic(auto)]

pub mod unchecked;

ghost use Rattle.std.specs.Prelude.{◌≡◌};
ghost use Rattle.iluk.specs.Checks.{wrong_lengths};
ghost use Rattle.iluk.specs.Iluk.{Initialized};

use answers::{Answer, Refusal};
use fill::is_wrong_output;
use patterns::is_too_large;
use patterns::unchecked::is_valid_pattern;
use unchecked::write_fill;

// Check 2, of the lengths of what is written and of the work.
pub fn has_wrong_lengths(
    n: usize,
    offsets: usize,
    columns: usize,
    splits: usize,
    levels: usize,
    row: usize,
) -> bool
    ensures { result ≡ wrong_lengths n offsets columns splits levels row }
{
    if is_wrong_output(n, offsets, columns, splits) {
        return true;
    }
    if levels != columns {
        return true;
    }
    row != n
}

// The fill of A at level k. No level passes 65,535, since no row does, so that no branch answers 5.
pub fn initialize_iluk(
    starts: &[u32],
    entries: &[u32],
    k: u32,
    offsets: &mut [u32],
    columns: &mut [u32],
    splits: &mut [u32],
    levels: &mut [u16],
    row: &mut [u32],
) -> Answer
    ensures { Initialized k starts.now entries.now offsets.old columns.old splits.old levels.old row.old result offsets.new columns.new splits.new levels.new row.new }
{
    if is_too_large(starts.len(), entries.len()) {
        return Err(Refusal::Size);
    }
    let n = starts.len() - 1;
    if has_wrong_lengths(
        n,
        offsets.len(),
        columns.len(),
        splits.len(),
        levels.len(),
        row.len(),
    ) {
        return Err(Refusal::Shape);
    }
    if !is_valid_pattern(starts, entries) {
        return Err(Refusal::Pattern);
    }
    if !write_fill(
        offsets, columns, splits, levels, row, k, n as u32, starts, entries,
    ) {
        return Err(Refusal::Room);
    }
    Ok(())
}
