// Document 01's `blkcsr` on lent bytes, with N as a number: 4 bytes to an index, 8 to a value, the low byte first.
// Bytes that make no whole words, or an N other than 1, 2, 3, are 2, after 1. Any other call is that of `elements` on the words that the bytes hold.
#![tactic(auto)]

pub mod unchecked;

ghost use Rattle.std.specs.Prelude.{◌≡◌, ◌++◌, ◌||◌, ◌/◌, length};
ghost use Rattle.std.specs.Float.{binary64};
ghost use Rattle.answers.specs.Numbers.{number_of};
ghost use Rattle.answers.specs.Checks.{first_of};
ghost use Rattle.answers.specs.Limits.{outside_of};
ghost use Rattle.answers.specs.Promise.{Ends};
ghost use Rattle.elements.specs.Assembly.{blkcsr_of};
ghost use Rattle.elements.specs.Checks.{blkcsr_checks};
ghost use Rattle.wire.specs.Bytes.{values_in, bytes_of};
ghost use Rattle.wire.specs.Words.{indexes_in};
ghost use Rattle.pattern_bytes.specs.Checks.{byte_checks};
ghost use Rattle.entry_bytes.specs.Checks.{broken_entries, misshapen_blkcsr};
ghost use Rattle.entry_bytes.specs.Rooms.{blkcsr_lengths};

use answers::Answer;
use numbered::is_no_dim;
use numbered::unchecked::check_entry_lengths;
use pattern_bytes::{check_bytes, is_broken_index, is_broken_pattern, is_broken_value};

// Whether some bytes make no whole words.
fn is_broken_entries(
    rows: usize,
    cols: usize,
    element: usize,
    offsets: usize,
    columns: usize,
    values: usize,
) -> bool
    ensures { result ≡ broken_entries rows cols element offsets columns values }
{
    if is_broken_index(rows) {
        return true;
    }
    if is_broken_index(cols) {
        return true;
    }
    if is_broken_value(element) {
        return true;
    }
    if is_broken_pattern(offsets, columns) {
        return true;
    }
    is_broken_value(values)
}

// N first: at a wrong one no length is known.
pub fn is_misshapen_entries(
    dim: u32,
    rows: usize,
    cols: usize,
    element: usize,
    offsets: usize,
    columns: usize,
    values: usize,
) -> bool
    ensures { result ≡ outside_of 1 3 dim || broken_entries rows cols element offsets columns values }
{
    if is_no_dim(dim) {
        return true;
    }
    is_broken_entries(rows, cols, element, offsets, columns, values)
}

// The checks of the call by the lengths of its bytes.
fn check_blkcsr(
    dim: u32,
    rows: usize,
    cols: usize,
    element: usize,
    offsets: usize,
    columns: usize,
    values: usize,
) -> Answer
    ensures { number_of result ≡ first_of (blkcsr_lengths dim rows cols element offsets columns values) }
{
    let misshapen = is_misshapen_entries(dim, rows, cols, element, offsets, columns, values);
    check_bytes(offsets, columns, misshapen)?;
    check_entry_lengths(
        dim,
        rows / 4,
        cols / 4,
        element / 8,
        offsets / 4,
        columns / 4,
        values / 8,
    )
}

// Every pair goes to an entry, own column included.
pub fn blkcsr(
    dim: u32,
    rows: &[u8],
    cols: &[u8],
    element: &[u8],
    offsets: &[u8],
    columns: &[u8],
    values: &mut [u8],
) -> Answer
    ensures { Ends
        (byte_checks (length offsets.now) (length columns.now) (misshapen_blkcsr dim (length rows.now) (length cols.now) (length element.now) (length offsets.now) (length columns.now) (length values.old))
        ++ blkcsr_checks dim (indexes_in rows.now) (indexes_in cols.now) (length element.now / 8) (indexes_in offsets.now) (indexes_in columns.now) (length values.old / 8))
        result
        (bytes_of binary64 (blkcsr_of binary64 dim (indexes_in rows.now) (indexes_in cols.now) (values_in binary64 element.now) (indexes_in offsets.now) (indexes_in columns.now) (values_in binary64 values.old)))
        values.old values.new }
{
    check_blkcsr(
        dim,
        rows.len(),
        cols.len(),
        element.len(),
        offsets.len(),
        columns.len(),
        values.len(),
    )?;
    unchecked::blkcsr_lent(values, dim, rows, cols, element, offsets, columns)
}
