// The rows of the fill one after the other, for a pattern and lengths that were checked.
// These functions ask that of their callers, so that no user calls them.
ghost use Rattle.std.specs.Prelude.{◌≡◌, length};
ghost use Rattle.fill.specs.Fill.{stored};
ghost use Rattle.fill.specs.Steps.{AllReady, Filled, Shaped, Whole};

use fill::{clear, clear_levels};
use fill_rows::unchecked::{count_marks, put_row, row_levels};

// All rows, each from those before it. Answers whether they fit; where one does not, the rows before it are written.
fn write_rows(
    offsets: &mut [u32],
    columns: &mut [u32],
    splits: &mut [u32],
    levels: &mut [u16],
    row: &mut [u32],
    k: u32,
    n: u32,
    starts: &[u32],
    entries: &[u32],
) -> bool
    requires { AllReady n starts.now entries.now offsets.old columns.old splits.old levels.old row.old }
    ensures { Filled (stored starts.now entries.now) k n columns.old levels.old result offsets.new columns.new splits.new levels.new row.new }
{
    offsets[0] = 0;
    let mut at = 0;
    for i in 0..n {
        let span = row_levels(row, i, k, starts, entries, offsets, columns, splits, levels);
        let all = count_marks(row, span.low, span.high);
        if columns.len() - at < all {
            return false;
        }
        put_row(
            columns, levels, splits, offsets, row, i as usize, at, all, span,
        );
        at += all;
    }
    true
}

// The fill at level k, into columns that are 0 past the last entry. Answers whether it fits; where it does not, every word is 0.
#[tactic(auto, using(fill::proofs::WholeLaws::whole_room, fill::proofs::WholeLaws::shaped_clear, fill::proofs::WholeLaws::zeros_as))]
pub fn write_fill(
    offsets: &mut [u32],
    columns: &mut [u32],
    splits: &mut [u32],
    levels: &mut [u16],
    row: &mut [u32],
    k: u32,
    n: u32,
    starts: &[u32],
    entries: &[u32],
) -> bool
    requires row_len { length row.old ≡ n }
    requires shaped { Shaped starts.now entries.now offsets.old columns.old splits.old levels.old row.old }
    ensures { Whole (stored starts.now entries.now) k n (length columns.old) result offsets.new columns.new splits.new levels.new row.new }
{
    clear(columns);
    clear(row);
    if write_rows(offsets, columns, splits, levels, row, k, n, starts, entries) {
        clear_levels(levels);
        return true;
    }
    clear(offsets);
    clear(columns);
    clear(splits);
    clear_levels(levels);
    clear(row);
    false
}
