// Both solvers with N as a number, for the cases that are run; a number that is no N counts as 3.
// The slices are those of conjugate_gradient and preconditioned_conjugate_gradient, in their order.
#![tactic(auto)]

use answers::Answer;
use blocks::{One, Three, Two};
use solvers::Solution;

#[derive(Clone, Copy, PartialEq, Eq)]
pub enum SolverCall {
    Plain,
    Preconditioned,
}

impl SolverCall {
    pub const ALL: [SolverCall; 2] = [SolverCall::Plain, SolverCall::Preconditioned];

    pub fn name(self) -> &'static str {
        match self {
            SolverCall::Plain => "conjugate_gradient",
            SolverCall::Preconditioned => "preconditioned_conjugate_gradient",
        }
    }

    // What the vectors of the solution and of the product are called.
    pub fn solution(self) -> &'static str {
        match self {
            SolverCall::Plain => "u",
            SolverCall::Preconditioned => "x",
        }
    }

    pub fn product(self) -> &'static str {
        match self {
            SolverCall::Plain => "ap",
            SolverCall::Preconditioned => "pr",
        }
    }
}

pub fn plain(
    dim: usize,
    r: &mut [f64],
    u: &mut [f64],
    ap: &mut [f64],
    p: &mut [f64],
    tolerance: f64,
    limit: u32,
    offsets: &[u32],
    columns: &[u32],
    values: &[f64],
    diagonal: &[f64],
    history: &mut [f64],
) -> Answer<Solution> {
    match dim {
        1 => gradient::conjugate_gradient::<One>(
            r, u, ap, p, tolerance, limit, offsets, columns, values, diagonal, history,
        ),
        2 => gradient::conjugate_gradient::<Two>(
            r, u, ap, p, tolerance, limit, offsets, columns, values, diagonal, history,
        ),
        _ => gradient::conjugate_gradient::<Three>(
            r, u, ap, p, tolerance, limit, offsets, columns, values, diagonal, history,
        ),
    }
}

pub fn preconditioned(
    dim: usize,
    r: &mut [f64],
    x: &mut [f64],
    pr: &mut [f64],
    p: &mut [f64],
    tolerance: f64,
    limit: u32,
    starts: &[u32],
    entries: &[u32],
    a_values: &[f64],
    a_diagonal: &[f64],
    offsets: &[u32],
    columns: &[u32],
    splits: &[u32],
    diagonal: &[f64],
    values: &[f64],
    history: &mut [f64],
) -> Answer<Solution> {
    match dim {
        1 => preconditioned_gradient::preconditioned_conjugate_gradient::<One>(
            r, x, pr, p, tolerance, limit, starts, entries, a_values, a_diagonal, offsets, columns,
            splits, diagonal, values, history,
        ),
        2 => preconditioned_gradient::preconditioned_conjugate_gradient::<Two>(
            r, x, pr, p, tolerance, limit, starts, entries, a_values, a_diagonal, offsets, columns,
            splits, diagonal, values, history,
        ),
        _ => preconditioned_gradient::preconditioned_conjugate_gradient::<Three>(
            r, x, pr, p, tolerance, limit, starts, entries, a_values, a_diagonal, offsets, columns,
            splits, diagonal, values, history,
        ),
    }
}
