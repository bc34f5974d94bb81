// The lines of the fixed list whose calls write a pattern: each is run and compared word for word. No call here has an N.
// A line's words are the count of each slice, then the call's numbers and slices in its order, its number and row, and what it leaves.
#![tactic(auto)]

pub mod written;

use answers::Numbered;
use lines::length::Form;
use lines::line::Line;
use written::{leaves_pattern, leaves_work, level_of};

fn ilu0_agrees(line: &Line) -> bool {
    let starts = line.indexes(5, 0);
    let entries = line.indexes(5, 1);
    let mut offsets = line.indexes(5, 2);
    let mut columns = line.indexes(5, 3);
    let mut splits = line.indexes(5, 4);
    let answer = ilu0::initialize_ilu0(
        &starts[..line.count(0)],
        &entries[..line.count(1)],
        &mut offsets[..line.count(2)],
        &mut columns[..line.count(3)],
        &mut splits[..line.count(4)],
    );
    leaves_pattern(
        line,
        line.place(5, 5),
        answer.number(),
        2,
        &offsets,
        &columns,
        &splits,
    )
}

// n stands before the slices.
fn full_agrees(line: &Line) -> bool {
    let mut offsets = line.indexes(4, 0);
    let mut columns = line.indexes(4, 1);
    let mut splits = line.indexes(4, 2);
    let answer = full::initialize_full(
        line.number(3),
        &mut offsets[..line.count(0)],
        &mut columns[..line.count(1)],
        &mut splits[..line.count(2)],
    );
    leaves_pattern(
        line,
        line.place(4, 3),
        answer.number(),
        0,
        &offsets,
        &columns,
        &splits,
    )
}

// k stands between A and what is written.
fn iluk_agrees(line: &Line) -> bool {
    let starts = line.indexes(7, 0);
    let entries = line.indexes(7, 1);
    let mut offsets = line.indexes(8, 2);
    let mut columns = line.indexes(8, 3);
    let mut splits = line.indexes(8, 4);
    let mut levels = line.items(8, 5, 0, level_of);
    let mut row = line.indexes(8, 6);
    let answer = iluk::initialize_iluk(
        &starts[..line.count(0)],
        &entries[..line.count(1)],
        line.number(line.place(7, 2)),
        &mut offsets[..line.count(2)],
        &mut columns[..line.count(3)],
        &mut splits[..line.count(4)],
        &mut levels[..line.count(5)],
        &mut row[..line.count(6)],
    );
    let at = line.place(8, 7);
    leaves_pattern(line, at, answer.number(), 2, &offsets, &columns, &splits)
        && leaves_work(line, at, &levels, &row)
}

#[derive(Clone, Copy, PartialEq, Eq)]
pub enum FillCall {
    Ilu0,
    Full,
    Iluk,
}

impl FillCall {
    pub fn name(self) -> &'static str {
        match self {
            FillCall::Ilu0 => "initialize_ilu0",
            FillCall::Full => "initialize_full",
            FillCall::Iluk => "initialize_iluk",
        }
    }

    pub fn form(self) -> Form {
        match self {
            FillCall::Ilu0 => Form::new(5, 0, 2..5),
            FillCall::Full => Form::new(3, 1, 0..3),
            FillCall::Iluk => Form::new(7, 1, 2..7),
        }
    }

    // Whether the call answers as the original: the number, the row and every word that it leaves.
    pub fn agrees(self, line: &Line) -> bool {
        match self {
            FillCall::Ilu0 => ilu0_agrees(line),
            FillCall::Full => full_agrees(line),
            FillCall::Iluk => iluk_agrees(line),
        }
    }
}
