// The pattern calls on lent bytes: 4 bytes to an index, the low byte first. Bytes that make no whole words are 2, after 1.
// Any other call is that of `patterns` or `rows` on the words that the bytes hold.
#![tactic(auto)]

pub mod unchecked;

ghost use Rattle.std.specs.Prelude.{◌≡◌, [], ◌++◌, ◌-◌, ◌*◌, ◌/◌, length};
ghost use Rattle.answers.specs.Numbers.{number_of};
ghost use Rattle.answers.specs.Checks.{first_of};
ghost use Rattle.answers.specs.Promise.{Ends};
ghost use Rattle.patterns.specs.Checks.{pattern_checks, entries_checks, factor_checks};
ghost use Rattle.rows.specs.Sort.{sort_of};
ghost use Rattle.wire.specs.Words.{indexes_in, bytes_of_indexes};
ghost use Rattle.pattern_bytes.specs.Checks.{broken, byte_checks, broken_pattern, broken_factor, checks_of, row_checks, Held};

use answers::{Answer, Entries, Refusal};
use patterns::is_too_large;
use unchecked::decode_pattern;
use wire::unchecked::{decode_indexes, encode_indexes};

// What is asked of a pattern: one of A, one in which a row's own column may stand, or one of a factor.
#[derive(Clone, Copy)]
enum Kind {
    Pattern,
    Entries,
    Factor,
}

// Whether bytes make no whole words of 4 bytes, as indexes and flags are.
pub fn is_broken_index(bytes: usize) -> bool
    ensures { result ≡ broken 4 bytes }
{
    bytes % 4 != 0
}

// The same of 8 bytes, as values are.
pub fn is_broken_value(bytes: usize) -> bool
    ensures { result ≡ broken 8 bytes }
{
    bytes % 8 != 0
}

pub fn is_broken_pattern(offsets: usize, columns: usize) -> bool
    ensures { result ≡ broken_pattern offsets columns }
{
    if is_broken_index(offsets) {
        return true;
    }
    is_broken_index(columns)
}

// The checks before the words are read, on the lengths of a pattern's bytes and what is known of the form of all that is lent.
pub fn check_bytes(offsets: usize, columns: usize, misshapen: bool) -> Answer
    ensures { number_of result ≡ first_of (byte_checks offsets columns misshapen) }
{
    if is_too_large(offsets / 4, columns / 4) {
        return Err(Refusal::Size);
    }
    if misshapen {
        return Err(Refusal::Shape);
    }
    Ok(())
}

// The call that is asked for, on words.
fn check_words(kind: Kind, offsets: &[u32], columns: &[u32], splits: &[u32]) -> Answer
    ensures { number_of result ≡ first_of (checks_of kind offsets.now columns.now splits.now) }
{
    match kind {
        Kind::Pattern => patterns::check_pattern(offsets, columns),
        Kind::Entries => patterns::check_entries(offsets, columns),
        Kind::Factor => patterns::check_factor(offsets, columns, splits),
    }
}

// The same on bytes, in room that is lent for the words.
fn check_in(
    offs: &mut [u32],
    cols: &mut [u32],
    cuts: &mut [u32],
    kind: Kind,
    offsets: &[u8],
    columns: &[u8],
    splits: &[u8],
) -> Answer
    requires { (length offsets.now ≡ 4 * length offs.old) × (length columns.now ≡ 4 * length cols.old) × (length splits.now ≡ 4 * length cuts.old) }
    ensures { number_of result ≡ first_of (checks_of kind (indexes_in offsets.now) (indexes_in columns.now) (indexes_in splits.now)) }
{
    decode_pattern(offs, cols, offsets, columns);
    decode_indexes(splits, cuts);
    check_words(kind, offs, cols, cuts)
}

// The same with room of its own, of a pattern of few words, which does not pay for the room of the largest.
fn check_in_small_room(kind: Kind, offsets: &[u8], columns: &[u8], splits: &[u8]) -> Answer
    requires { (Held 4 17 (length offsets.now)) × (Held 4 64 (length columns.now)) × (Held 4 16 (length splits.now)) }
    ensures { number_of result ≡ first_of (checks_of kind (indexes_in offsets.now) (indexes_in columns.now) (indexes_in splits.now)) }
{
    let mut offs = [0u32; 17];
    let mut cols = [0u32; 64];
    let mut cuts = [0u32; 16];
    check_in(
        &mut offs[..offsets.len() / 4],
        &mut cols[..columns.len() / 4],
        &mut cuts[..splits.len() / 4],
        kind,
        offsets,
        columns,
        splits,
    )
}

fn check_in_full_room(kind: Kind, offsets: &[u8], columns: &[u8], splits: &[u8]) -> Answer
    requires { (Held 4 4097 (length offsets.now)) × (Held 4 65535 (length columns.now)) × (Held 4 4096 (length splits.now)) }
    ensures { number_of result ≡ first_of (checks_of kind (indexes_in offsets.now) (indexes_in columns.now) (indexes_in splits.now)) }
{
    let mut offs = [0u32; 4097];
    let mut cols = [0u32; 65535];
    let mut cuts = [0u32; 4096];
    check_in(
        &mut offs[..offsets.len() / 4],
        &mut cols[..columns.len() / 4],
        &mut cuts[..splits.len() / 4],
        kind,
        offsets,
        columns,
        splits,
    )
}

// The same with as much room as it takes.
fn check_kind(kind: Kind, offsets: &[u8], columns: &[u8], splits: &[u8]) -> Answer
    requires { (Held 4 4097 (length offsets.now)) × (Held 4 65535 (length columns.now)) × (Held 4 4096 (length splits.now)) }
    ensures { number_of result ≡ first_of (checks_of kind (indexes_in offsets.now) (indexes_in columns.now) (indexes_in splits.now)) }
{
    if offsets.len() > 68 {
        return check_in_full_room(kind, offsets, columns, splits);
    }
    if columns.len() > 256 {
        return check_in_full_room(kind, offsets, columns, splits);
    }
    if splits.len() > 64 {
        return check_in_full_room(kind, offsets, columns, splits);
    }
    check_in_small_room(kind, offsets, columns, splits)
}

// A pattern without splits, of either kind.
fn check_unsplit(kind: Kind, offsets: &[u8], columns: &[u8]) -> Answer
    ensures { number_of result ≡ first_of (byte_checks (length offsets.now) (length columns.now) (broken_pattern (length offsets.now) (length columns.now))
        ++ checks_of kind (indexes_in offsets.now) (indexes_in columns.now) []) }
{
    let misshapen = is_broken_pattern(offsets.len(), columns.len());
    check_bytes(offsets.len(), columns.len(), misshapen)?;
    let none = [0u8; 1];
    check_kind(kind, offsets, columns, &none[..0])
}

// A pattern of A.
pub fn check_pattern(offsets: &[u8], columns: &[u8]) -> Answer
    ensures { number_of result ≡ first_of (byte_checks (length offsets.now) (length columns.now) (broken_pattern (length offsets.now) (length columns.now))
        ++ pattern_checks (indexes_in offsets.now) (indexes_in columns.now)) }
{
    check_unsplit(Kind::Pattern, offsets, columns)
}

// A pattern in which a row's own column may stand.
pub fn check_entries(offsets: &[u8], columns: &[u8]) -> Answer
    ensures { number_of result ≡ first_of (byte_checks (length offsets.now) (length columns.now) (broken_pattern (length offsets.now) (length columns.now))
        ++ entries_checks (indexes_in offsets.now) (indexes_in columns.now)) }
{
    check_unsplit(Kind::Entries, offsets, columns)
}

// The rows of a pattern by the bytes of its offsets, none where there is no offset.
fn rows_of(offsets: usize) -> usize
    ensures { result ≡ offsets / 4 - 1 }
{
    if offsets < 4 {
        return 0;
    }
    offsets / 4 - 1
}

fn is_broken_factor(offsets: usize, columns: usize, splits: usize) -> bool
    ensures { result ≡ broken_factor offsets columns splits }
{
    if is_broken_pattern(offsets, columns) {
        return true;
    }
    splits != 4 * rows_of(offsets)
}

// A factor pattern, with a split to each row.
pub fn check_factor(offsets: &[u8], columns: &[u8], splits: &[u8]) -> Answer
    ensures { number_of result ≡ first_of (byte_checks (length offsets.now) (length columns.now) (broken_factor (length offsets.now) (length columns.now) (length splits.now))
        ++ factor_checks (indexes_in offsets.now) (indexes_in columns.now) (indexes_in splits.now)) }
{
    let misshapen = is_broken_factor(offsets.len(), columns.len(), splits.len());
    check_bytes(offsets.len(), columns.len(), misshapen)?;
    check_kind(Kind::Factor, offsets, columns, splits)
}

// A row's bytes sorted, in room that is lent for the words.
fn sort_in(room: &mut [u32], columns: &mut [u8])
    requires { length columns.old ≡ 4 * length room.old }
    ensures { columns.new ≡ bytes_of_indexes (sort_of (indexes_in columns.old)) }
{
    decode_indexes(columns, room);
    rows::sort(room);
    encode_indexes(room, columns);
}

fn sort_in_small_room(columns: &mut [u8])
    requires { Held 4 64 (length columns.old) }
    ensures { columns.new ≡ bytes_of_indexes (sort_of (indexes_in columns.old)) }
{
    let mut room = [0u32; 64];
    let count = columns.len() / 4;
    sort_in(&mut room[..count], columns);
}

fn sort_in_full_room(columns: &mut [u8])
    requires { Held 4 65535 (length columns.old) }
    ensures { columns.new ≡ bytes_of_indexes (sort_of (indexes_in columns.old)) }
{
    let mut room = [0u32; 65535];
    let count = columns.len() / 4;
    sort_in(&mut room[..count], columns);
}

fn sort_whole(columns: &mut [u8])
    requires { Held 4 65535 (length columns.old) }
    ensures { columns.new ≡ bytes_of_indexes (sort_of (indexes_in columns.old)) }
{
    if columns.len() > 256 {
        sort_in_full_room(columns);
    } else {
        sort_in_small_room(columns);
    }
}

// The checks of a row, on the length of its bytes.
fn check_row(columns: usize) -> Answer
    ensures { number_of result ≡ first_of (row_checks columns) }
{
    if Entries(columns / 4).out_of_range() {
        return Err(Refusal::Size);
    }
    if is_broken_index(columns) {
        return Err(Refusal::Shape);
    }
    Ok(())
}

// A row's columns in rising order.
pub fn sort_row(columns: &mut [u8]) -> Answer
    ensures { Ends (row_checks (length columns.old)) result (bytes_of_indexes (sort_of (indexes_in columns.old))) columns.old columns.new }
{
    check_row(columns.len())?;
    sort_whole(columns);
    Ok(())
}
