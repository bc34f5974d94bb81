// The calls that write a pattern, on lent bytes: 4 bytes to an index, 2 to a level, the low byte first. Bytes that make no whole words are 2, after 1.
// Any other call is that of `full`, `ilu0` or `iluk` on the words that the bytes hold. What is lent to be written is not read.
#![tactic(auto)]

ghost use Rattle.std.specs.Prelude.{◌≡◌, ◌||◌, ◌-◌, ◌/◌, length};
ghost use Rattle.answers.specs.Numbers.{number_of};
ghost use Rattle.answers.specs.Checks.{first_of};
ghost use Rattle.answers.specs.Limits.{rows_out_of_range};
ghost use Rattle.patterns.specs.Checks.{too_large};
ghost use Rattle.fill.specs.Promise.{wrong_outputs};
ghost use Rattle.full.specs.Full.{full_offsets, full_splits};
ghost use Rattle.ilu0.specs.Ilu0.{sorted_splits};
ghost use Rattle.iluk.specs.Checks.{wrong_lengths};
ghost use Rattle.wire.specs.Words.{indexes_in, bytes_of_indexes};
ghost use Rattle.pattern_bytes.specs.Checks.{broken};
ghost use Rattle.fill_bytes.specs.Checks.{broken_outputs, broken_fill, broken_iluk, full_byte_checks, ilu0_byte_checks, iluk_byte_checks, length_checks};
ghost use Rattle.fill_way.specs.Promise.{Wrote, Cleared, full_columns_in, ilu0_columns, iluk_offsets, iluk_columns, iluk_splits};

use answers::{Answer, Numbered, Refusal, Rows};
use fill::is_wrong_output;
use fill_way::unchecked::{Call, clear_if_written, write_lent};
use iluk::has_wrong_lengths;
use pattern_bytes::{check_bytes, is_broken_index, is_broken_pattern};

fn is_broken_outputs(offsets: usize, columns: usize, splits: usize) -> bool
    ensures { result ≡ broken_outputs offsets columns splits }
{
    if is_broken_pattern(offsets, columns) {
        return true;
    }
    is_broken_index(splits)
}

fn is_broken_fill(
    starts: usize,
    entries: usize,
    offsets: usize,
    columns: usize,
    splits: usize,
) -> bool
    ensures { result ≡ broken_fill starts entries offsets columns splits }
{
    if is_broken_pattern(starts, entries) {
        return true;
    }
    is_broken_outputs(offsets, columns, splits)
}

// The work of the fill at a level.
fn is_broken_work(levels: usize, row: usize) -> bool
    ensures { result ≡ broken 2 levels || broken 4 row }
{
    if levels % 2 != 0 {
        return true;
    }
    is_broken_index(row)
}

fn is_broken_iluk(
    starts: usize,
    entries: usize,
    offsets: usize,
    columns: usize,
    splits: usize,
    levels: usize,
    row: usize,
) -> bool
    ensures { result ≡ broken_iluk starts entries offsets columns splits levels row }
{
    if is_broken_fill(starts, entries, offsets, columns, splits) {
        return true;
    }
    is_broken_work(levels, row)
}

// The checks of a full pattern by the lengths of its bytes.
fn check_full(n: usize, offsets: usize, columns: usize, splits: usize) -> Answer
    ensures { number_of result ≡ first_of (length_checks (rows_out_of_range n) (broken_outputs offsets columns splits) (wrong_outputs n (offsets / 4) (columns / 4) (splits / 4))) }
{
    if Rows(n).out_of_range() {
        return Err(Refusal::Size);
    }
    if is_broken_outputs(offsets, columns, splits) {
        return Err(Refusal::Shape);
    }
    if is_wrong_output(n, offsets / 4, columns / 4, splits / 4) {
        return Err(Refusal::Shape);
    }
    Ok(())
}

// All other columns of each of n rows.
pub fn initialize_full(n: u32, offsets: &mut [u8], columns: &mut [u8], splits: &mut [u8]) -> Answer
    ensures { Wrote (full_byte_checks n (length offsets.old) (length columns.old) (length splits.old)) (number_of result)
        (bytes_of_indexes (full_offsets n)) (bytes_of_indexes (full_columns_in n (length columns.old / 4))) (bytes_of_indexes (full_splits n))
        offsets.old columns.old splits.old offsets.new columns.new splits.new }
{
    check_full(n as usize, offsets.len(), columns.len(), splits.len())?;
    let no_starts = [0u8; 1];
    let no_entries = [0u8; 1];
    write_lent(
        offsets,
        columns,
        splits,
        Call::Full,
        n,
        &no_starts[..0],
        &no_entries[..0],
    )
}

// The checks of the sorted rows by the lengths of their bytes.
fn check_ilu0(
    starts: usize,
    entries: usize,
    offsets: usize,
    columns: usize,
    splits: usize,
) -> Answer
    ensures { number_of result ≡ first_of (length_checks (too_large (starts / 4) (entries / 4)) (broken_fill starts entries offsets columns splits)
        (wrong_outputs (starts / 4 - 1) (offsets / 4) (columns / 4) (splits / 4))) }
{
    let broken = is_broken_fill(starts, entries, offsets, columns, splits);
    check_bytes(starts, entries, broken)?;
    if is_wrong_output(starts / 4 - 1, offsets / 4, columns / 4, splits / 4) {
        return Err(Refusal::Shape);
    }
    Ok(())
}

// The rows of A sorted, with their splits.
pub fn initialize_ilu0(
    starts: &[u8],
    entries: &[u8],
    offsets: &mut [u8],
    columns: &mut [u8],
    splits: &mut [u8],
) -> Answer
    ensures { Wrote (ilu0_byte_checks starts.now entries.now (length offsets.old) (length columns.old) (length splits.old)) (number_of result)
        (bytes_of_indexes (indexes_in starts.now))
        (bytes_of_indexes (ilu0_columns (indexes_in starts.now) (indexes_in entries.now) (length columns.old / 4)))
        (bytes_of_indexes (sorted_splits (indexes_in starts.now) (indexes_in entries.now)))
        offsets.old columns.old splits.old offsets.new columns.new splits.new }
{
    check_ilu0(
        starts.len(),
        entries.len(),
        offsets.len(),
        columns.len(),
        splits.len(),
    )?;
    write_lent(offsets, columns, splits, Call::Ilu0, 0, starts, entries)
}

// The checks of the fill at a level by the lengths of its bytes.
fn check_iluk(
    starts: usize,
    entries: usize,
    offsets: usize,
    columns: usize,
    splits: usize,
    levels: usize,
    row: usize,
) -> Answer
    ensures { number_of result ≡ first_of (length_checks (too_large (starts / 4) (entries / 4)) (broken_iluk starts entries offsets columns splits levels row)
        (wrong_lengths (starts / 4 - 1) (offsets / 4) (columns / 4) (splits / 4) (levels / 2) (row / 4))) }
{
    let broken = is_broken_iluk(starts, entries, offsets, columns, splits, levels, row);
    check_bytes(starts, entries, broken)?;
    if has_wrong_lengths(
        starts / 4 - 1,
        offsets / 4,
        columns / 4,
        splits / 4,
        levels / 2,
        row / 4,
    ) {
        return Err(Refusal::Shape);
    }
    Ok(())
}

// The fill of A at level k. Of the work nothing is coded: its bytes are 0 after a call that writes.
pub fn initialize_iluk(
    starts: &[u8],
    entries: &[u8],
    k: u32,
    offsets: &mut [u8],
    columns: &mut [u8],
    splits: &mut [u8],
    levels: &mut [u8],
    row: &mut [u8],
) -> Answer
    ensures wrote { Wrote (iluk_byte_checks k starts.now entries.now (length offsets.old) (length columns.old) (length splits.old) (length levels.old) (length row.old)) (number_of result)
        (bytes_of_indexes (iluk_offsets k (indexes_in starts.now) (indexes_in entries.now)))
        (bytes_of_indexes (iluk_columns k (indexes_in starts.now) (indexes_in entries.now) (length columns.old / 4)))
        (bytes_of_indexes (iluk_splits k (indexes_in starts.now) (indexes_in entries.now)))
        offsets.old columns.old splits.old offsets.new columns.new splits.new }
    ensures cleared { Cleared (number_of result) levels.old row.old levels.new row.new }
{
    check_iluk(
        starts.len(),
        entries.len(),
        offsets.len(),
        columns.len(),
        splits.len(),
        levels.len(),
        row.len(),
    )?;
    let answer = write_lent(offsets, columns, splits, Call::Iluk, k, starts, entries);
    let number = answer.number();
    clear_if_written(levels, number);
    clear_if_written(row, number);
    answer
}
