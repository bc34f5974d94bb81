// The fill calls, initialize_ilu0, initialize_full and initialize_iluk (0, 1, 2), at their limits and on large patterns: a function runs one case, by its number.
// Every lent word is dirty before a call. Nothing is printed here, so that nothing is assumed.
#![tactic(auto)]

pub mod plates;
pub mod small;
pub mod words;

ghost use Rattle.std.specs.Prelude.{◌≤◌};

use answers::Numbered;
use limits::ring::{fill_columns, fill_offsets};
use plates::fill_pattern;
use std::fmt;
use words::is_left;

#[derive(Clone, Copy, PartialEq, Eq)]
pub enum FillCall {
    Ilu0,
    Full,
    Iluk,
}

impl FillCall {
    pub fn name(self) -> &'static str {
        match self {
            FillCall::Ilu0 => "initialize_ilu0",
            FillCall::Full => "initialize_full",
            FillCall::Iluk => "initialize_iluk",
        }
    }
}

// The number, how many entries were written, and whether every other lent word is what document 01 has after that number.
#[derive(Drop)]
pub struct Filled {
    pub number: u32,
    pub entries: u32,
    pub right: bool,
}

// The number; words that are not what document 01 has after it are shouted.
impl fmt::Display for Filled {
    fn fmt<W: fmt::Write>(&self, f: &mut fmt::Formatter<W>) -> fmt::Result {
        write!(f, " {}", self.number)?;
        if !self.right {
            f.write_str(" WRONG")?;
        }
        Ok(())
    }
}

// How many words of each slice are lent.
#[derive(Drop)]
struct Lengths {
    offsets: usize,
    columns: usize,
    splits: usize,
    levels: usize,
    row: usize,
}

fn at_most(x: usize, most: usize) -> usize
    ensures { result ≤ most }
{
    x.min(most)
}

// The last of the first words of a slice, and 0 where there is none.
fn last_of(words: &[u32], count: usize) -> u32 {
    if count == 0 {
        return 0;
    }
    if count > words.len() {
        return 0;
    }
    words[count - 1]
}

fn run(
    call: FillCall,
    n: u32,
    k: u32,
    starts: &[u32],
    entries: &[u32],
    offsets: &mut [u32],
    columns: &mut [u32],
    splits: &mut [u32],
    levels: &mut [u16],
    row: &mut [u32],
) -> u32 {
    match call {
        FillCall::Ilu0 => ilu0::initialize_ilu0(starts, entries, offsets, columns, splits).number(),
        FillCall::Full => full::initialize_full(n, offsets, columns, splits).number(),
        FillCall::Iluk => iluk::initialize_iluk(
            starts, entries, k, offsets, columns, splits, levels, row,
        ).number(),
    }
}

// How many of a slice's lent words a call writes: all after 0, 4 and 5, and none after another number.
fn written(number: u32, lent: usize) -> usize {
    match number {
        0 | 4 | 5 => lent,
        _ => 0,
    }
}

// From where on they are 0: after 0 behind what the call is for.
fn zero_from(number: u32, used: usize) -> usize {
    if number == 0 { used } else { 0 }
}

// The work of initialize_iluk is lent to no other call.
fn work(call: FillCall, lent: usize) -> usize {
    if call == FillCall::Iluk { lent } else { 0 }
}

// What a call leaves in rooms of which these lengths were lent.
fn seen(
    number: u32,
    lent: Lengths,
    offsets: &[u32; 4099],
    columns: &[u32; 65536],
    splits: &[u32; 4098],
    levels: &[u16; 65536],
    row: &[u32; 4098],
) -> Filled {
    let count = last_of(offsets, lent.offsets);
    let mut right = is_left(
        offsets,
        zero_from(number, lent.offsets),
        written(number, lent.offsets),
    );
    right &= is_left(
        columns,
        zero_from(number, count as usize),
        written(number, lent.columns),
    );
    right &= is_left(
        splits,
        zero_from(number, lent.splits),
        written(number, lent.splits),
    );
    right &= is_left(levels, 0, written(number, lent.levels));
    right &= is_left(row, 0, written(number, lent.row));
    Filled {
        number,
        entries: count,
        right,
    }
}

// A call on lent words of these lengths, all dirty before it, as are those past them.
fn try_fill(
    call: FillCall,
    n: u32,
    k: u32,
    starts: &[u32],
    entries: &[u32],
    lent: Lengths,
) -> Filled {
    let a = at_most(lent.offsets, 4099);
    let b = at_most(lent.columns, 65536);
    let c = at_most(lent.splits, 4098);
    let d = at_most(lent.levels, 65536);
    let e = at_most(lent.row, 4098);
    let mut offsets = [7u32; 4099];
    let mut columns = [7u32; 65536];
    let mut splits = [7u32; 4098];
    let mut levels = [7u16; 65536];
    let mut row = [7u32; 4098];
    let number = run(
        call,
        n,
        k,
        starts,
        entries,
        &mut offsets[0..a],
        &mut columns[0..b],
        &mut splits[0..c],
        &mut levels[0..d],
        &mut row[0..e],
    );
    let used = Lengths {
        offsets: a,
        columns: b,
        splits: c,
        levels: work(call, d),
        row: work(call, e),
    };
    seen(number, used, &offsets, &columns, &splits, &levels, &row)
}

// Cases: 0 is right, two rows that name each other in room for 2; 1 to 8 make offsets, splits, levels and row short, long; 9 has room for 1;
// 10 own columns; 11 those and offsets too long; 12 both and no row; 13 and 14 room of 65,535 and 65,536; 15 one row and no room;
// 16 and 17 have 4,096 and 4,097 rows without an entry; 18 and 19 have 65,535 and 65,536 entries, at k = 0.
// A call has not all of them: initialize_ilu0 has no work, and initialize_full neither work nor a pattern.
pub fn is_case_of(call: FillCall, case: usize) -> bool {
    match case {
        5 | 6 | 7 | 8 => call == FillCall::Iluk,
        10 | 11 | 18 | 19 => call != FillCall::Full,
        _ => true,
    }
}

fn row_count(case: usize) -> u32
    ensures { result ≤ 4097 }
{
    match case {
        12 => 0,
        15 => 1,
        16 => 4096,
        17 => 4097,
        18 | 19 => 257,
        _ => 2,
    }
}

fn entry_count(case: usize) -> usize
    ensures { result ≤ 65536 }
{
    match case {
        12 | 15 | 16 | 17 => 0,
        18 => 65535,
        19 => 65536,
        _ => 2,
    }
}

fn room(case: usize) -> usize
    ensures { result ≤ 65536 }
{
    match case {
        9 => 1,
        13 | 18 | 19 => 65535,
        14 => 65536,
        15 => 0,
        _ => 2,
    }
}

// The length that a slice has in a case: one short, one long, or right. Offsets are long in cases 11 and 12.
fn length_in(case: usize, slice: usize, right: usize) -> usize
    requires { (slice ≤ 3) × (right ≤ 65536) }
{
    if case == 2 * slice + 1 {
        if right > 0 {
            return right - 1;
        }
    }
    if case == 2 * slice + 2 {
        return right + 1;
    }
    if slice == 0 {
        if case == 11 {
            return right + 1;
        }
        if case == 12 {
            return right + 1;
        }
    }
    right
}

fn lengths_in(case: usize) -> Lengths {
    let n = row_count(case) as usize;
    let columns = room(case);
    Lengths {
        offsets: length_in(case, 0, n + 1),
        columns,
        splits: length_in(case, 1, n),
        levels: length_in(case, 2, columns),
        row: length_in(case, 3, n),
    }
}

// Rows of the ring have one column, none, or 255 where there are as many entries as may be.
fn width(case: usize) -> u32 {
    match case {
        15 | 16 | 17 => 0,
        18 | 19 => 255,
        _ => 1,
    }
}

fn start(case: usize) -> u32 {
    match case {
        10 | 11 | 12 => 0,
        _ => 1,
    }
}

pub fn try_limit(call: FillCall, case: usize) -> Filled {
    let mut starts = [0u32; 4098];
    let mut entries = [0u32; 65536];
    let n = row_count(case);
    fill_offsets(&mut starts, width(case));
    fill_columns(&mut entries, n, width(case), start(case));
    let rows = at_most(n as usize + 1, 4098);
    try_fill(
        call,
        n,
        0,
        &starts[0..rows],
        &entries[0..entry_count(case)],
        lengths_in(case),
    )
}

fn right_lengths(n: usize, columns: usize) -> Lengths
    requires { n ≤ 4096 }
{
    Lengths {
        offsets: n + 1,
        columns,
        splits: n,
        levels: columns,
        row: n,
    }
}

// A pattern of `plates` with 4,096 rows, in all the room that there may be.
pub fn try_plate(call: FillCall, kind: usize, k: u32) -> Filled {
    let mut starts = [0u32; 4098];
    let mut entries = [0u32; 65536];
    let count = fill_pattern(&mut starts, &mut entries, kind, 4096);
    let entries_lent = at_most(count as usize, 65536);
    try_fill(
        call,
        4096,
        k,
        &starts[0..4097],
        &entries[0..entries_lent],
        right_lengths(4096, 65535),
    )
}

// initialize_full of 256 rows, which have 65,280 entries, and of 257, in all the room that there may be.
pub fn try_full(case: usize) -> Filled {
    let n = full_rows(case);
    try_fill(
        FillCall::Full,
        n,
        0,
        &[0],
        &[],
        right_lengths(n as usize, 65535),
    )
}

fn full_rows(case: usize) -> u32
    ensures { result ≤ 257 }
{
    if case == 0 { 256 } else { 257 }
}
