// Document 01's `initialize_full`: the pattern of a factor whose rows have all other columns.
// No pattern is lent: n alone says what is written.
#![tactic(auto)]

pub mod unchecked;

ghost use Rattle.full.specs.Full.{Complete};

use answers::{Answer, Refusal, Rows};
use fill::{clear, is_wrong_output};
use unchecked::write_rows;

// Each word is written once: the rows one after the other, and zeros behind them.
pub fn initialize_full(
    n: u32,
    offsets: &mut [u32],
    columns: &mut [u32],
    splits: &mut [u32],
) -> Answer
    ensures { Complete n offsets.old columns.old splits.old result offsets.new columns.new splits.new }
{
    let rows = n as usize;
    if Rows(rows).out_of_range() {
        return Err(Refusal::Size);
    }
    if is_wrong_output(rows, offsets.len(), columns.len(), splits.len()) {
        return Err(Refusal::Shape);
    }
    let all = rows * (rows - 1);
    if columns.len() < all {
        clear(offsets);
        clear(columns);
        clear(splits);
        return Err(Refusal::Room);
    }
    write_rows(offsets, columns, splits, rows);
    clear(&mut columns[all..]);
    Ok(())
}
