// The entry points of the calls that write a pattern, on lent byte slices: 4 bytes to an index, 2 to a level, the low byte first. No call here has an N.
// All work is in the crate `fill_bytes`; here an answer becomes an outcome. `timed` is the call on words, for a benchmark.
ghost use Rattle.std.specs.Prelude.{◌≡◌, ◌/◌, length};
ghost use Rattle.full.specs.Full.{full_offsets, full_splits, full_checks};
ghost use Rattle.ilu0.specs.Ilu0.{sorted_splits, ilu0_checks};
ghost use Rattle.iluk.specs.Checks.{iluk_checks};
ghost use Rattle.wire.specs.Words.{indexes_in, bytes_of_indexes};
ghost use Rattle.fill_way.specs.Promise.{Wrote, Cleared, full_columns_in, ilu0_columns, iluk_offsets, iluk_columns, iluk_splits};
ghost use Rattle.fill_bytes.specs.Checks.{full_byte_checks, ilu0_byte_checks, iluk_byte_checks};

use answers::Numbered;
use outcomes::{Outcome, rowless};

// All other columns of each of n rows.
pub fn pierbramble_initialize_full(
    n: u32,
    offsets: &mut [u8],
    columns: &mut [u8],
    splits: &mut [u8],
) -> Outcome
    ensures { (Wrote (full_byte_checks n (length offsets.old) (length columns.old) (length splits.old)) result.number
        (bytes_of_indexes (full_offsets n)) (bytes_of_indexes (full_columns_in n (length columns.old / 4))) (bytes_of_indexes (full_splits n))
        offsets.old columns.old splits.old offsets.new columns.new splits.new) × (result.row ≡ 0) }
{
    rowless(fill_bytes::initialize_full(n, offsets, columns, splits))
}

// The rows of A sorted, with their splits.
pub fn pierbramble_initialize_ilu0(
    starts: &[u8],
    entries: &[u8],
    offsets: &mut [u8],
    columns: &mut [u8],
    splits: &mut [u8],
) -> Outcome
    ensures { (Wrote (ilu0_byte_checks starts.now entries.now (length offsets.old) (length columns.old) (length splits.old)) result.number
        (bytes_of_indexes (indexes_in starts.now)) (bytes_of_indexes (ilu0_columns (indexes_in starts.now) (indexes_in entries.now) (length columns.old / 4))) (bytes_of_indexes (sorted_splits (indexes_in starts.now) (indexes_in entries.now)))
        offsets.old columns.old splits.old offsets.new columns.new splits.new) × (result.row ≡ 0) }
{
    rowless(fill_bytes::initialize_ilu0(starts, entries, offsets, columns, splits))
}

// The fill of A at level k.
pub fn pierbramble_initialize_iluk(
    starts: &[u8],
    entries: &[u8],
    k: u32,
    offsets: &mut [u8],
    columns: &mut [u8],
    splits: &mut [u8],
    levels: &mut [u8],
    row: &mut [u8],
) -> Outcome
    ensures { (Wrote (iluk_byte_checks k starts.now entries.now (length offsets.old) (length columns.old) (length splits.old) (length levels.old) (length row.old)) result.number
        (bytes_of_indexes (iluk_offsets k (indexes_in starts.now) (indexes_in entries.now))) (bytes_of_indexes (iluk_columns k (indexes_in starts.now) (indexes_in entries.now) (length columns.old / 4))) (bytes_of_indexes (iluk_splits k (indexes_in starts.now) (indexes_in entries.now)))
        offsets.old columns.old splits.old offsets.new columns.new splits.new) × (Cleared result.number levels.old row.old levels.new row.new) × (result.row ≡ 0) }
{
    rowless(fill_bytes::initialize_iluk(starts, entries, k, offsets, columns, splits, levels, row))
}

pub fn pierbramble_timed_initialize_full(
    n: u32,
    offsets: &mut [u32],
    columns: &mut [u32],
    splits: &mut [u32],
) -> u32
    ensures { Wrote (full_checks n (length offsets.old) (length columns.old) (length splits.old)) result
        (full_offsets n) (full_columns_in n (length columns.old)) (full_splits n)
        offsets.old columns.old splits.old offsets.new columns.new splits.new }
{
    full::initialize_full(n, offsets, columns, splits).number()
}

pub fn pierbramble_timed_initialize_ilu0(
    starts: &[u32],
    entries: &[u32],
    offsets: &mut [u32],
    columns: &mut [u32],
    splits: &mut [u32],
) -> u32
    ensures { Wrote (ilu0_checks starts.now entries.now (length offsets.old) (length columns.old) (length splits.old)) result
        starts.now (ilu0_columns starts.now entries.now (length columns.old)) (sorted_splits starts.now entries.now)
        offsets.old columns.old splits.old offsets.new columns.new splits.new }
{
    ilu0::initialize_ilu0(starts, entries, offsets, columns, splits).number()
}

pub fn pierbramble_timed_initialize_iluk(
    starts: &[u32],
    entries: &[u32],
    k: u32,
    offsets: &mut [u32],
    columns: &mut [u32],
    splits: &mut [u32],
    levels: &mut [u16],
    row: &mut [u32],
) -> u32
    ensures wrote { Wrote (iluk_checks k starts.now entries.now (length offsets.old) (length columns.old) (length splits.old) (length levels.old) (length row.old)) result
        (iluk_offsets k starts.now entries.now) (iluk_columns k starts.now entries.now (length columns.old)) (iluk_splits k starts.now entries.now)
        offsets.old columns.old splits.old offsets.new columns.new splits.new }
    ensures cleared { Cleared result levels.old row.old levels.new row.new }
{
    iluk::initialize_iluk(starts, entries, k, offsets, columns, splits, levels, row).number()
}
