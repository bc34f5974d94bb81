// The lines of the pattern calls: offsets, columns and, of a factor, splits; and those of the row sort.
// A check leaves no word.
use crate::length::Form;
use crate::line::{Line, after};
use answers::Numbered;

#[derive(Clone, Copy, PartialEq, Eq)]
pub enum PatternCall {
    CheckPattern,
    CheckEntries,
    CheckFactor,
    SortRow,
}

fn checks_pattern(line: &Line) -> bool {
    let offsets = line.indexes(2, 0);
    let columns = line.indexes(2, 1);
    let answer = patterns::check_pattern(&offsets[..line.count(0)], &columns[..line.count(1)]);
    line.is_answer(line.place(2, 2), answer.number())
}

fn checks_entries(line: &Line) -> bool {
    let offsets = line.indexes(2, 0);
    let columns = line.indexes(2, 1);
    let answer = patterns::check_entries(&offsets[..line.count(0)], &columns[..line.count(1)]);
    line.is_answer(line.place(2, 2), answer.number())
}

fn checks_factor(line: &Line) -> bool {
    let offsets = line.indexes(3, 0);
    let columns = line.indexes(3, 1);
    let splits = line.indexes(3, 2);
    let answer = patterns::check_factor(
        &offsets[..line.count(0)],
        &columns[..line.count(1)],
        &splits[..line.count(2)],
    );
    line.is_answer(line.place(3, 3), answer.number())
}

fn sorts_row(line: &Line) -> bool {
    let count = line.count(0);
    let mut columns = line.indexes(1, 0);
    rows::sort(&mut columns[..count]);
    let at = line.place(1, 1);
    line.is_answer(at, 0) && line.are_indexes(after(at, 2), &columns[..count])
}

impl PatternCall {
    pub fn name(self) -> &'static str {
        match self {
            PatternCall::CheckPattern => "check_pattern",
            PatternCall::CheckEntries => "check_entries",
            PatternCall::CheckFactor => "check_factor",
            PatternCall::SortRow => "sort_row",
        }
    }

    pub fn form(self) -> Form {
        match self {
            PatternCall::CheckPattern | PatternCall::CheckEntries => Form::new(2, 0, 0..0),
            PatternCall::CheckFactor => Form::new(3, 0, 0..0),
            PatternCall::SortRow => Form::new(1, 0, 0..1),
        }
    }

    // Whether the call answers as the original: the number, the row and every word that it leaves.
    pub fn agrees(self, line: &Line) -> bool {
        match self {
            PatternCall::CheckPattern => checks_pattern(line),
            PatternCall::CheckEntries => checks_entries(line),
            PatternCall::CheckFactor => checks_factor(line),
            PatternCall::SortRow => sorts_row(line),
        }
    }
}
