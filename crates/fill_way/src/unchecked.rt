// The way of the calls that write a pattern from bytes to bytes, once the checks by lengths have passed: the words of A are read, the call runs in rooms of its own,
// and what it wrote is written to the lent bytes. These functions ask that of their callers, so that no user calls them.
ghost use Rattle.std.specs.Prelude.{◌≡◌, cond, ◌*◌, length, replicate};
ghost use Rattle.answers.specs.Numbers.{number_of};
ghost use Rattle.fill.specs.Promise.{cleared, leaves};
ghost use Rattle.wire.specs.Words.{bytes_of_indexes};
ghost use Rattle.fill_way.specs.Ways.{writes, WroteWords, WroteBytes, HeldFill, is_small};

use answers::{Answer, Numbered};
use pattern_bytes::unchecked::decode_pattern;
use wire::unchecked::encode_indexes;

// Which call, so that all share one way.
#[derive(Clone, Copy)]
pub enum Call {
    Full,
    Ilu0,
    Iluk,
}

fn is_written(number: u32) -> bool
    ensures { result ≡ writes number }
{
    if number == 0 {
        return true;
    }
    if number == 4 {
        return true;
    }
    number == 5
}

fn clear_bytes(s: &mut [u8])
    ensures { s.new ≡ replicate (length s.old) 0 }
{
    let mut i = 0;
    while i < s.len() {
        s[i] = 0;
        i += 1;
    }
}

// Work bytes after a call of this number.
pub fn clear_if_written(bytes: &mut [u8], number: u32)
    ensures { bytes.new ≡ leaves number (cleared bytes.old) bytes.old }
{
    if is_written(number) {
        clear_bytes(bytes);
    }
}

// Words as bytes, after a call of this number. What a call that does not write left of them is not looked at.
fn put_words(bytes: &mut [u8], number: u32, words: &[u32])
    requires { length bytes.old ≡ 4 * length words.now }
    ensures { bytes.new ≡ cond (writes number) (bytes_of_indexes words.now) bytes.old }
{
    if is_written(number) {
        encode_indexes(words, bytes);
    }
}

// The same of a pattern.
fn put_pattern(
    offsets: &mut [u8],
    columns: &mut [u8],
    splits: &mut [u8],
    number: u32,
    offs: &[u32],
    cols: &[u32],
    cuts: &[u32],
)
    requires { (length offsets.old ≡ 4 * length offs.now) × (length columns.old ≡ 4 * length cols.now) × (length splits.old ≡ 4 * length cuts.now) }
    ensures { (offsets.new ≡ cond (writes number) (bytes_of_indexes offs.now) offsets.old)
        × (columns.new ≡ cond (writes number) (bytes_of_indexes cols.now) columns.old)
        × (splits.new ≡ cond (writes number) (bytes_of_indexes cuts.now) splits.old) }
{
    put_words(offsets, number, offs);
    put_words(columns, number, cols);
    put_words(splits, number, cuts);
}

// The call that is asked for, on words. Of a full pattern k is the number of rows.
fn write_words(
    offsets: &mut [u32],
    columns: &mut [u32],
    splits: &mut [u32],
    levels: &mut [u16],
    row: &mut [u32],
    call: Call,
    k: u32,
    starts: &[u32],
    entries: &[u32],
) -> Answer
    requires { (length levels.old ≡ length columns.old) × (length row.old ≡ length splits.old) }
    ensures { WroteWords call k starts.now entries.now offsets.old columns.old splits.old (number_of result) offsets.new columns.new splits.new }
{
    match call {
        Call::Full => full::initialize_full(k, offsets, columns, splits),
        Call::Ilu0 => ilu0::initialize_ilu0(starts, entries, offsets, columns, splits),
        Call::Iluk => {
            iluk::initialize_iluk(starts, entries, k, offsets, columns, splits, levels, row)
        }
    }
}

// In room that is lent for the words.
fn write_in(
    strs: &mut [u32],
    ents: &mut [u32],
    offs: &mut [u32],
    cols: &mut [u32],
    cuts: &mut [u32],
    levels: &mut [u16],
    row: &mut [u32],
    offsets: &mut [u8],
    columns: &mut [u8],
    splits: &mut [u8],
    call: Call,
    k: u32,
    starts: &[u8],
    entries: &[u8],
) -> Answer
    requires levels_len { (length levels.old ≡ length cols.old) × (length row.old ≡ length cuts.old) }
    requires starts_len { (length starts.now ≡ 4 * length strs.old) × (length entries.now ≡ 4 * length ents.old) × (length offsets.old ≡ 4 * length offs.old) × (length columns.old ≡ 4 * length cols.old) × (length splits.old ≡ 4 * length cuts.old) }
    ensures { WroteBytes call k starts.now entries.now offsets.old columns.old splits.old (number_of result) offsets.new columns.new splits.new }
{
    decode_pattern(strs, ents, starts, entries);
    let answer = write_words(offs, cols, cuts, levels, row, call, k, strs, ents);
    put_pattern(offsets, columns, splits, answer.number(), offs, cols, cuts);
    answer
}

// With room of its own. A call of few words does not clear the room of the largest pattern.
fn write_in_small_room(
    offsets: &mut [u8],
    columns: &mut [u8],
    splits: &mut [u8],
    call: Call,
    k: u32,
    starts: &[u8],
    entries: &[u8],
) -> Answer
    requires { HeldFill 16 64 256 (length starts.now) (length entries.now) (length offsets.old) (length columns.old) (length splits.old) }
    ensures { WroteBytes call k starts.now entries.now offsets.old columns.old splits.old (number_of result) offsets.new columns.new splits.new }
{
    let mut strs = [0u32; 17];
    let mut ents = [0u32; 64];
    let mut offs = [0u32; 17];
    let mut cols = [0u32; 256];
    let mut cuts = [0u32; 16];
    let mut levels = [0u16; 256];
    let mut row = [0u32; 16];
    let s = starts.len() / 4;
    let e = entries.len() / 4;
    let o = offsets.len() / 4;
    let c = columns.len() / 4;
    let n = splits.len() / 4;
    write_in(
        &mut strs[..s],
        &mut ents[..e],
        &mut offs[..o],
        &mut cols[..c],
        &mut cuts[..n],
        &mut levels[..c],
        &mut row[..n],
        offsets,
        columns,
        splits,
        call,
        k,
        starts,
        entries,
    )
}

fn write_in_full_room(
    offsets: &mut [u8],
    columns: &mut [u8],
    splits: &mut [u8],
    call: Call,
    k: u32,
    starts: &[u8],
    entries: &[u8],
) -> Answer
    requires { HeldFill 4096 65535 65535 (length starts.now) (length entries.now) (length offsets.old) (length columns.old) (length splits.old) }
    ensures { WroteBytes call k starts.now entries.now offsets.old columns.old splits.old (number_of result) offsets.new columns.new splits.new }
{
    let mut strs = [0u32; 4097];
    let mut ents = [0u32; 65535];
    let mut offs = [0u32; 4097];
    let mut cols = [0u32; 65535];
    let mut cuts = [0u32; 4096];
    let mut levels = [0u16; 65535];
    let mut row = [0u32; 4096];
    let s = starts.len() / 4;
    let e = entries.len() / 4;
    let o = offsets.len() / 4;
    let c = columns.len() / 4;
    let n = splits.len() / 4;
    write_in(
        &mut strs[..s],
        &mut ents[..e],
        &mut offs[..o],
        &mut cols[..c],
        &mut cuts[..n],
        &mut levels[..c],
        &mut row[..n],
        offsets,
        columns,
        splits,
        call,
        k,
        starts,
        entries,
    )
}

// Whether bytes fit in the small rooms.
fn is_small(starts: usize, entries: usize, offsets: usize, columns: usize, splits: usize) -> bool
    ensures { result ≡ is_small starts entries offsets columns splits }
{
    if starts > 68 {
        return false;
    }
    if entries > 256 {
        return false;
    }
    if offsets > 68 {
        return false;
    }
    if columns > 1024 {
        return false;
    }
    splits <= 64
}

// From bytes to bytes.
pub fn write_lent(
    offsets: &mut [u8],
    columns: &mut [u8],
    splits: &mut [u8],
    call: Call,
    k: u32,
    starts: &[u8],
    entries: &[u8],
) -> Answer
    requires { HeldFill 4096 65535 65535 (length starts.now) (length entries.now) (length offsets.old) (length columns.old) (length splits.old) }
    ensures { WroteBytes call k starts.now entries.now offsets.old columns.old splits.old (number_of result) offsets.new columns.new splits.new }
{
    if is_small(
        starts.len(),
        entries.len(),
        offsets.len(),
        columns.len(),
        splits.len(),
    ) {
        return write_in_small_room(offsets, columns, splits, call, k, starts, entries);
    }
    write_in_full_room(offsets, columns, splits, call, k, starts, entries)
}
