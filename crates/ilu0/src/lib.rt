// Document 01's `initialize_ilu0`: the pattern of an incomplete factor without fill, which is that of A with its rows sorted.
// The pattern A is lent as `starts`, its offsets, and `entries`, its columns.
#![tactic(auto)]

pub mod unchecked;

ghost use Rattle.ilu0.specs.Ilu0.{Sorted};

use answers::{Answer, Refusal};
use fill::{clear, is_wrong_output};
use patterns::is_too_large;
use patterns::unchecked::is_valid_pattern;
use unchecked::write_sorted;

pub fn initialize_ilu0(
    starts: &[u32],
    entries: &[u32],
    offsets: &mut [u32],
    columns: &mut [u32],
    splits: &mut [u32],
) -> Answer
    ensures { Sorted starts.now entries.now offsets.old columns.old splits.old result offsets.new columns.new splits.new }
{
    if is_too_large(starts.len(), entries.len()) {
        return Err(Refusal::Size);
    }
    let n = starts.len() - 1;
    if is_wrong_output(n, offsets.len(), columns.len(), splits.len()) {
        return Err(Refusal::Shape);
    }
    if !is_valid_pattern(starts, entries) {
        return Err(Refusal::Pattern);
    }
    if columns.len() < entries.len() {
        clear(offsets);
        clear(columns);
        clear(splits);
        return Err(Refusal::Room);
    }
    write_sorted(offsets, columns, splits, starts, entries);
    Ok(())
}
