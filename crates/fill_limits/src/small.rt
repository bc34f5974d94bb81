// Document 01's cases of the fill, on patterns of at most five rows, and what each call leaves.
// P has the pairs 0-2, 0-3, 1-2, 1-4; Q, of case 5, the pairs 0-3, 0-1, 1-2, 2-4; both ways, rows not sorted.
ghost use Rattle.std.specs.Prelude.{◌≤◌};

use answers::Numbered;

// A call's number, and what it writes of n rows.
#[derive(Drop)]
pub struct Written {
    pub number: u32,
    pub rows: usize,
    pub offsets: [u32; 6],
    pub columns: [u32; 20],
    pub splits: [u32; 5],
}

// P, Q, and one row without an entry.
fn row_count(which: usize) -> usize
    ensures { result ≤ 5 }
{
    if which < 2 { 5 } else { 1 }
}

fn entry_count(which: usize) -> usize
    ensures { result ≤ 8 }
{
    if which < 2 { 8 } else { 0 }
}

fn starts_of(which: usize) -> [u32; 6] {
    if which < 2 {
        return [0, 2, 4, 6, 7, 8];
    }
    [0, 0, 0, 0, 0, 0]
}

fn entries_of(which: usize) -> [u32; 8] {
    if which == 0 {
        return [3, 2, 4, 2, 1, 0, 0, 1];
    }
    [3, 1, 2, 0, 4, 1, 0, 2]
}

fn room(x: usize) -> usize
    ensures { result ≤ 20 }
{
    if x < 20 { x } else { 20 }
}

// initialize_iluk of a pattern, in room for so many entries.
pub fn try_iluk(which: usize, k: u32, most: usize) -> Written {
    let n = row_count(which);
    let count = entry_count(which);
    let starts = starts_of(which);
    let entries = entries_of(which);
    let lent = room(most);
    let mut offsets = [7u32; 6];
    let mut columns = [7u32; 20];
    let mut splits = [7u32; 5];
    let mut levels = [7u16; 20];
    let mut row = [7u32; 5];
    let answer = iluk::initialize_iluk(
        &starts[0..n + 1],
        &entries[0..count],
        k,
        &mut offsets[0..n + 1],
        &mut columns[0..lent],
        &mut splits[0..n],
        &mut levels[0..lent],
        &mut row[0..n],
    );
    Written {
        number: answer.number(),
        rows: n,
        offsets,
        columns,
        splits,
    }
}

// initialize_ilu0 of a pattern.
pub fn try_ilu0(which: usize) -> Written {
    let n = row_count(which);
    let count = entry_count(which);
    let starts = starts_of(which);
    let entries = entries_of(which);
    let mut offsets = [7u32; 6];
    let mut columns = [7u32; 20];
    let mut splits = [7u32; 5];
    let answer = ilu0::initialize_ilu0(
        &starts[0..n + 1],
        &entries[0..count],
        &mut offsets[0..n + 1],
        &mut columns,
        &mut splits[0..n],
    );
    Written {
        number: answer.number(),
        rows: n,
        offsets,
        columns,
        splits,
    }
}

fn full_rows(case: usize) -> usize
    ensures { result ≤ 3 }
{
    if case == 0 { 1 } else { 3 }
}

// initialize_full of one row, and of three.
pub fn try_full(case: usize) -> Written {
    let rows = full_rows(case);
    let mut offsets = [7u32; 6];
    let mut columns = [7u32; 20];
    let mut splits = [7u32; 5];
    let answer = full::initialize_full(
        rows as u32,
        &mut offsets[0..rows + 1],
        &mut columns,
        &mut splits[0..rows],
    );
    Written {
        number: answer.number(),
        rows,
        offsets,
        columns,
        splits,
    }
}
