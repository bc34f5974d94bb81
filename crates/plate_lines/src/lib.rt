// The lines of the fixed list whose calls work on a matrix: each is run, with N as a number, and compared word for word.
// A line's words are the count of each slice, then the call's numbers and slices in its order, its number and row, and what it leaves.
#![tactic(auto)]

pub mod element_lines;
pub mod matrix_lines;

use lines::length::Form;
use lines::line::Line;

#[derive(Clone, Copy, PartialEq, Eq)]
pub enum MatrixCall {
    MultVec,
    SetZero,
    SetFixedBc,
    Merge,
    Csrdia,
    Blkcsr,
}

impl MatrixCall {
    pub fn name(self) -> &'static str {
        match self {
            MatrixCall::MultVec => "mult_vec",
            MatrixCall::SetZero => "matrix_set_zero",
            MatrixCall::SetFixedBc => "set_fixed_bc",
            MatrixCall::Merge => "merge",
            MatrixCall::Csrdia => "csrdia",
            MatrixCall::Blkcsr => "blkcsr",
        }
    }

    pub fn form(self) -> Form {
        match self {
            MatrixCall::MultVec => Form::new(6, 2, 4..5),
            MatrixCall::SetZero => Form::new(4, 0, 2..4),
            MatrixCall::SetFixedBc => Form::new(5, 1, 1..3),
            MatrixCall::Merge => Form::new(6, 0, 4..6),
            MatrixCall::Csrdia => Form::new(7, 0, 5..7),
            MatrixCall::Blkcsr => Form::new(6, 0, 5..6),
        }
    }

    // Whether the call answers as the original: the number, the row and every word that it leaves.
    pub fn agrees(self, dim: u32, line: &Line) -> bool {
        match self {
            MatrixCall::MultVec => matrix_lines::mult_vec_agrees(dim, line),
            MatrixCall::SetZero => matrix_lines::set_zero_agrees(dim, line),
            MatrixCall::SetFixedBc => matrix_lines::set_fixed_bc_agrees(dim, line),
            MatrixCall::Merge => element_lines::merge_agrees(dim, line),
            MatrixCall::Csrdia => element_lines::csrdia_agrees(line),
            MatrixCall::Blkcsr => element_lines::blkcsr_agrees(dim, line),
        }
    }
}
