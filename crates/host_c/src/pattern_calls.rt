// The exports of `host::pattern_calls`, as the crate's root says: each is the call of the same name, with the same promise.
ghost use Rattle.std.specs.Prelude.{◌≡◌, ◌++◌, length};
ghost use Rattle.answers.specs.Checks.{first_of};
ghost use Rattle.patterns.specs.Checks.{pattern_checks, entries_checks, factor_checks};
ghost use Rattle.rows.specs.Sort.{sort_of};
ghost use Rattle.wire.specs.Words.{indexes_in, bytes_of_indexes};
ghost use Rattle.pattern_bytes.specs.Checks.{byte_checks, broken_pattern, broken_factor, row_checks};
ghost use Rattle.outcomes.specs.Calls.{Checked, Finished};

use outcomes::Outcome;

// Whether a pattern of A is valid.
#[unsafe(no_mangle)]
pub extern "C" fn pierbramble_check_pattern(offsets: &[u8], columns: &[u8]) -> Outcome
    ensures { Checked (byte_checks (length offsets.now) (length columns.now) (broken_pattern (length offsets.now) (length columns.now))
        ++ pattern_checks (indexes_in offsets.now) (indexes_in columns.now)) result }
{
    host::pattern_calls::pierbramble_check_pattern(offsets, columns)
}

// Whether one is in which a row's own column may stand.
#[unsafe(no_mangle)]
pub extern "C" fn pierbramble_check_entries(offsets: &[u8], columns: &[u8]) -> Outcome
    ensures { Checked (byte_checks (length offsets.now) (length columns.now) (broken_pattern (length offsets.now) (length columns.now))
        ++ entries_checks (indexes_in offsets.now) (indexes_in columns.now)) result }
{
    host::pattern_calls::pierbramble_check_entries(offsets, columns)
}

// Whether a factor pattern is.
#[unsafe(no_mangle)]
pub extern "C" fn pierbramble_check_factor(offsets: &[u8], columns: &[u8], splits: &[u8]) -> Outcome
    ensures { Checked (byte_checks (length offsets.now) (length columns.now) (broken_factor (length offsets.now) (length columns.now) (length splits.now))
        ++ factor_checks (indexes_in offsets.now) (indexes_in columns.now) (indexes_in splits.now)) result }
{
    host::pattern_calls::pierbramble_check_factor(offsets, columns, splits)
}

// A row's columns in rising order.
#[unsafe(no_mangle)]
pub extern "C" fn pierbramble_sort_row(columns: &mut [u8]) -> Outcome
    ensures { (Finished (row_checks (length columns.old)) result.number
        (bytes_of_indexes (sort_of (indexes_in columns.old))) columns.old columns.new) × (result.row ≡ 0) }
{
    host::pattern_calls::pierbramble_sort_row(columns)
}

#[unsafe(no_mangle)]
pub extern "C" fn pierbramble_timed_check_pattern(offsets: &[u32], columns: &[u32]) -> u32
    ensures { result ≡ first_of (pattern_checks offsets.now columns.now) }
{
    host::pattern_calls::pierbramble_timed_check_pattern(offsets, columns)
}
