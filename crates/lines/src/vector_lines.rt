// The lines of the vector calls: n, the vector that is written, a factor where the call has one, and a second vector or flags.
// A dot product's line ends with its sum.
use crate::length::Form;
use crate::line::{Line, after};
use answers::{Answer, Numbered};
use vector_bytes::numbered;

#[derive(Clone, Copy, PartialEq, Eq)]
pub enum VectorCall {
    SetZero,
    Copy,
    AddScaledVector,
    ScaleAndAddVec,
    SetFixed,
    SetFixDofToRhsVector,
    Dot,
}

fn sets_zero(dim: u32, line: &Line) -> bool {
    let mut first = line.values(2, 0);
    let answer = numbered::set_zero(dim, line.number(1), &mut first[..line.count(0)]);
    line.leaves(line.place(2, 1), answer.number(), 0, &first)
}

fn copies(dim: u32, line: &Line) -> bool {
    let mut first = line.values(3, 0);
    let second = line.values(3, 1);
    let answer = numbered::copy(
        dim,
        line.number(2),
        &mut first[..line.count(0)],
        &second[..line.count(1)],
    );
    line.leaves(line.place(3, 2), answer.number(), 0, &first)
}

// A vector, a factor and a second vector, and what a call does with them.
fn scales<Run: FnOnce(u32, &mut [f64], f64, &[f64]) -> u32>(line: &Line, run: Run) -> bool
    requires { Run.IsAlwaysCallable run }
{
    let mut first = line.values(3, 0);
    let second = line.values(4, 1);
    let number = run(
        line.number(2),
        &mut first[..line.count(0)],
        line.value(line.place(3, 1)),
        &second[..line.count(1)],
    );
    line.leaves(line.place(4, 2), number, 0, &first)
}

// A vector and flags, and what a call does with them.
fn fixes<Run: FnOnce(u32, &mut [f64], &[i32]) -> u32>(line: &Line, run: Run) -> bool
    requires { Run.IsAlwaysCallable run }
{
    let mut first = line.values(3, 0);
    let flags = line.flags(3, 1);
    let number = run(
        line.number(2),
        &mut first[..line.count(0)],
        &flags[..line.count(1)],
    );
    line.leaves(line.place(3, 2), number, 0, &first)
}

fn is_sum(line: &Line, at: usize, answer: Answer<f64>) -> bool {
    match answer {
        Ok(sum) => { line.is_answer(at, 0) && words::bits_of(sum) == line.word(after(at, 2)) }
        Err(why) => line.is_answer(at, why.number()) && line.word(after(at, 2)) == 0,
    }
}

fn multiplies(dim: u32, line: &Line) -> bool {
    let first = line.values(3, 0);
    let second = line.values(3, 1);
    let answer = numbered::dot(
        dim,
        line.number(2),
        &first[..line.count(0)],
        &second[..line.count(1)],
    );
    is_sum(line, line.place(3, 2), answer)
}

impl VectorCall {
    pub fn name(self) -> &'static str {
        match self {
            VectorCall::SetZero => "set_zero",
            VectorCall::Copy => "copy",
            VectorCall::AddScaledVector => "add_scaled_vector",
            VectorCall::ScaleAndAddVec => "scale_and_add_vec",
            VectorCall::SetFixed => "set_fixed",
            VectorCall::SetFixDofToRhsVector => "set_fix_dof_to_rhs_vector",
            VectorCall::Dot => "dot",
        }
    }

    // A dot product leaves no slice but its sum, which is counted with its numbers.
    pub fn form(self) -> Form {
        match self {
            VectorCall::SetZero => Form::new(1, 1, 0..1),
            VectorCall::AddScaledVector | VectorCall::ScaleAndAddVec => Form::new(2, 2, 0..1),
            VectorCall::Dot => Form::new(2, 2, 0..0),
            _ => Form::new(2, 1, 0..1),
        }
    }

    // Whether the call answers as the original: the number, the row and every word that it leaves.
    pub fn agrees(self, dim: u32, line: &Line) -> bool {
        match self {
            VectorCall::SetZero => sets_zero(dim, line),
            VectorCall::Copy => copies(dim, line),
            VectorCall::AddScaledVector => scales(line, |n, u: &mut [f64], s, p: &[f64]| {
                numbered::add_scaled_vector(dim, n, u, s, p).number()
            }),
            VectorCall::ScaleAndAddVec => scales(line, |n, p: &mut [f64], s, r: &[f64]| {
                numbered::scale_and_add_vec(dim, n, p, s, r).number()
            }),
            VectorCall::SetFixed => fixes(line, |n, values: &mut [f64], flags: &[i32]| {
                numbered::set_fixed(dim, n, values, flags).number()
            }),
            VectorCall::SetFixDofToRhsVector => fixes(line, |n, rhs: &mut [f64], flags: &[i32]| {
                numbered::set_fix_dof_to_rhs_vector(dim, n, rhs, flags).number()
            }),
            VectorCall::Dot => multiplies(dim, line),
        }
    }
}
