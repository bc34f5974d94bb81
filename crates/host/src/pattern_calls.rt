// The entry points of the pattern calls, on lent byte slices: 4 bytes to an index, the low byte first. No call here has an N.
// All work is in the crate `pattern_bytes`; here an answer becomes an outcome. `timed` is the call on words, for a benchmark.
ghost use Rattle.std.specs.Prelude.{◌≡◌, ◌++◌, length};
ghost use Rattle.answers.specs.Checks.{first_of};
ghost use Rattle.patterns.specs.Checks.{pattern_checks, entries_checks, factor_checks};
ghost use Rattle.rows.specs.Sort.{sort_of};
ghost use Rattle.wire.specs.Words.{indexes_in, bytes_of_indexes};
ghost use Rattle.pattern_bytes.specs.Checks.{byte_checks, broken_pattern, broken_factor, row_checks};
ghost use Rattle.outcomes.specs.Calls.{Checked, Finished};

use answers::Numbered;
use outcomes::{Outcome, rowless};

// Whether a pattern of A is valid.
pub fn pierbramble_check_pattern(offsets: &[u8], columns: &[u8]) -> Outcome
    ensures { Checked (byte_checks (length offsets.now) (length columns.now) (broken_pattern (length offsets.now) (length columns.now))
        ++ pattern_checks (indexes_in offsets.now) (indexes_in columns.now)) result }
{
    rowless(pattern_bytes::check_pattern(offsets, columns))
}

// Whether one is in which a row's own column may stand.
pub fn pierbramble_check_entries(offsets: &[u8], columns: &[u8]) -> Outcome
    ensures { Checked (byte_checks (length offsets.now) (length columns.now) (broken_pattern (length offsets.now) (length columns.now))
        ++ entries_checks (indexes_in offsets.now) (indexes_in columns.now)) result }
{
    rowless(pattern_bytes::check_entries(offsets, columns))
}

// Whether a factor pattern is.
pub fn pierbramble_check_factor(offsets: &[u8], columns: &[u8], splits: &[u8]) -> Outcome
    ensures { Checked (byte_checks (length offsets.now) (length columns.now) (broken_factor (length offsets.now) (length columns.now) (length splits.now))
        ++ factor_checks (indexes_in offsets.now) (indexes_in columns.now) (indexes_in splits.now)) result }
{
    rowless(pattern_bytes::check_factor(offsets, columns, splits))
}

// A row's columns in rising order.
pub fn pierbramble_sort_row(columns: &mut [u8]) -> Outcome
    ensures { (Finished (row_checks (length columns.old)) result.number
        (bytes_of_indexes (sort_of (indexes_in columns.old))) columns.old columns.new) × (result.row ≡ 0) }
{
    rowless(pattern_bytes::sort_row(columns))
}

pub fn pierbramble_timed_check_pattern(offsets: &[u32], columns: &[u32]) -> u32
    ensures { result ≡ first_of (pattern_checks offsets.now columns.now) }
{
    patterns::check_pattern(offsets, columns).number()
}
