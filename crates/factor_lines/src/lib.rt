// The lines of the fixed list whose calls work on the values of a factor: each is run and compared word for word.
// A line's words are the count of each slice, the call's slices in its order, its number and row, and what it leaves.
#![tactic(auto)]

use answers::Numbered;
use lines::length::Form;
use lines::line::{Line, after};

fn copy_value_agrees(dim: u32, line: &Line) -> bool {
    let starts = line.indexes(9, 0);
    let entries = line.indexes(9, 1);
    let a_diagonal = line.values(9, 2);
    let a_values = line.values(9, 3);
    let offsets = line.indexes(9, 4);
    let columns = line.indexes(9, 5);
    let splits = line.indexes(9, 6);
    let mut diagonal = line.values(9, 7);
    let mut values = line.values(9, 8);
    let answer = numbered_factors::copy_value(
        dim,
        &starts[..line.count(0)],
        &entries[..line.count(1)],
        &a_diagonal[..line.count(2)],
        &a_values[..line.count(3)],
        &offsets[..line.count(4)],
        &columns[..line.count(5)],
        &splits[..line.count(6)],
        &mut diagonal[..line.count(7)],
        &mut values[..line.count(8)],
    );
    line.leaves_both(line.place(9, 9), answer.number(), 7, &diagonal, &values)
}

// Whether the number and the row are those at a place.
fn is_answer_in_row(line: &Line, at: usize, number: u32, row: u32) -> bool {
    line.word(at) == u64::from(number) && line.word(after(at, 1)) == u64::from(row)
}

// Whether slices 3 and 4 hold the values from a place on.
fn hold_both(line: &Line, at: usize, diagonal: &[f64; 128], values: &[f64; 128]) -> bool {
    let next = after(at, line.count(3));
    line.are_values(at, &diagonal[..line.count(3)])
        && line.are_values(next, &values[..line.count(4)])
}

// After 9 the row stands in the line, and what is left are the values at that moment.
fn decompose_agrees(dim: u32, line: &Line) -> bool {
    let offsets = line.indexes(5, 0);
    let columns = line.indexes(5, 1);
    let splits = line.indexes(5, 2);
    let mut diagonal = line.values(5, 3);
    let mut values = line.values(5, 4);
    let answer = numbered_factors::decompose(
        dim,
        &offsets[..line.count(0)],
        &columns[..line.count(1)],
        &splits[..line.count(2)],
        &mut diagonal[..line.count(3)],
        &mut values[..line.count(4)],
    );
    let at = line.place(5, 5);
    is_answer_in_row(line, at, answer.number(), answer.row())
        && hold_both(line, after(at, 2), &diagonal, &values)
}

fn solve_agrees(dim: u32, line: &Line) -> bool {
    let mut vec = line.values(6, 0);
    let offsets = line.indexes(6, 1);
    let columns = line.indexes(6, 2);
    let splits = line.indexes(6, 3);
    let diagonal = line.values(6, 4);
    let values = line.values(6, 5);
    let answer = numbered_factors::solve_preconditioning_vec(
        dim,
        &mut vec[..line.count(0)],
        &offsets[..line.count(1)],
        &columns[..line.count(2)],
        &splits[..line.count(3)],
        &diagonal[..line.count(4)],
        &values[..line.count(5)],
    );
    line.leaves(line.place(6, 6), answer.number(), 0, &vec)
}

#[derive(Clone, Copy, PartialEq, Eq)]
pub enum FactorCall {
    CopyValue,
    Decompose,
    SolvePreconditioningVec,
}

impl FactorCall {
    pub fn name(self) -> &'static str {
        match self {
            FactorCall::CopyValue => "copy_value",
            FactorCall::Decompose => "decompose",
            FactorCall::SolvePreconditioningVec => "solve_preconditioning_vec",
        }
    }

    pub fn form(self) -> Form {
        match self {
            FactorCall::CopyValue => Form::new(9, 0, 7..9),
            FactorCall::Decompose => Form::new(5, 0, 3..5),
            FactorCall::SolvePreconditioningVec => Form::new(6, 0, 0..1),
        }
    }

    // Whether the call answers as the original: the number, the row and every word that it leaves.
    pub fn agrees(self, dim: u32, line: &Line) -> bool {
        match self {
            FactorCall::CopyValue => copy_value_agrees(dim, line),
            FactorCall::Decompose => decompose_agrees(dim, line),
            FactorCall::SolvePreconditioningVec => solve_agrees(dim, line),
        }
    }
}
