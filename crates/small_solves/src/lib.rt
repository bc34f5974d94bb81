// Small systems and where both solvers, conjugate_gradient and preconditioned_conjugate_gradient end on them: a function runs one case, by its number.
// Lent words rise by one from 1 on, so that those which a call leaves alone show. Nothing is printed here, so that nothing is assumed.
#![tactic(auto)]

pub mod factored;
pub mod inputs;

use answers::Answer;
use factored::factor;
use inputs::{history_of, limit_of, product_of, right_side_of, rising, scale_of, tolerance_of};
use limits::sizes::{values_a_block, values_a_row};
use ring_systems::{fill_diagonal, fill_values};
use solver_calls::{SolverCall, plain, preconditioned};
use solvers::Solution;

// The answer, and the words that are left: r, u or x, ap or pr, p, and the history with the words past its count.
#[derive(Clone, Copy)]
pub struct Left {
    pub answer: Answer<Solution>,
    pub r: [f64; 12],
    pub x: [f64; 12],
    pub q: [f64; 12],
    pub p: [f64; 12],
    pub history: [f64; 12],
}

fn solve_plainly(
    dim: usize,
    case: usize,
    r: &mut [f64],
    u: &mut [f64],
    ap: &mut [f64],
    p: &mut [f64],
    history: &mut [f64],
    values: &[f64],
    diagonal: &[f64],
) -> Answer<Solution> {
    let offsets = [0u32, 2, 4, 6, 8];
    let columns = [1u32, 3, 2, 0, 3, 1, 0, 2];
    plain(
        dim,
        r,
        u,
        ap,
        p,
        tolerance_of(case),
        limit_of(SolverCall::Plain, dim, case),
        &offsets,
        &columns,
        values,
        diagonal,
        history,
    )
}

// The factor is that of A before it is scaled.
fn solve_with_factor(
    dim: usize,
    case: usize,
    r: &mut [f64],
    x: &mut [f64],
    pr: &mut [f64],
    p: &mut [f64],
    history: &mut [f64],
    a_values: &[f64],
    a_diagonal: &[f64],
    diagonal: &mut [f64],
    values: &mut [f64],
) -> Answer<Solution> {
    let starts = [0u32, 2, 4, 6, 8];
    let entries = [1u32, 3, 2, 0, 3, 1, 0, 2];
    let offsets = [0u32, 2, 4, 6, 8];
    let columns = [1u32, 3, 0, 2, 1, 3, 0, 2];
    let splits = [0u32, 3, 5, 8];
    factor(dim, diagonal, values);
    preconditioned(
        dim,
        r,
        x,
        pr,
        p,
        tolerance_of(case),
        limit_of(SolverCall::Preconditioned, dim, case),
        &starts,
        &entries,
        a_values,
        a_diagonal,
        &offsets,
        &columns,
        &splits,
        diagonal,
        values,
        history,
    )
}

fn solve_by_factor(
    dim: usize,
    case: usize,
    r: &mut [f64],
    x: &mut [f64],
    pr: &mut [f64],
    p: &mut [f64],
    history: &mut [f64],
    a_values: &[f64],
    a_diagonal: &[f64],
) -> Answer<Solution> {
    let mut diagonal = [7.0; 36];
    let mut values = [7.0; 72];
    solve_with_factor(
        dim,
        case,
        r,
        x,
        pr,
        p,
        history,
        a_values,
        a_diagonal,
        &mut diagonal[0..4 * values_a_block(dim)],
        &mut values[0..8 * values_a_block(dim)],
    )
}

// Four rows in a ring.
fn solve(
    call: SolverCall,
    dim: usize,
    case: usize,
    r: &mut [f64],
    x: &mut [f64],
    q: &mut [f64],
    p: &mut [f64],
    history: &mut [f64],
) -> Answer<Solution> {
    let size = values_a_block(dim);
    let mut diagonal = [0.0; 36];
    let mut values = [0.0; 72];
    fill_diagonal(&mut diagonal, dim, scale_of(case));
    fill_values(&mut values, dim, 8, scale_of(case));
    if call == SolverCall::Plain {
        return solve_plainly(
            dim,
            case,
            r,
            x,
            q,
            p,
            history,
            &values[0..8 * size],
            &diagonal[0..4 * size],
        );
    }
    solve_by_factor(
        dim,
        case,
        r,
        x,
        q,
        p,
        history,
        &values[0..8 * size],
        &diagonal[0..4 * size],
    )
}

pub fn solved(call: SolverCall, dim: usize, case: usize) -> Left {
    let count = 4 * values_a_row(dim);
    let mut r = right_side_of(case);
    let mut x = rising();
    let mut q = product_of(case);
    let mut p = rising();
    let mut history = rising();
    let answer = solve(
        call,
        dim,
        case,
        &mut r[0..count],
        &mut x[0..count],
        &mut q[0..count],
        &mut p[0..count],
        &mut history[0..history_of(call, dim, case)],
    );
    Left {
        answer,
        r,
        x,
        q,
        p,
        history,
    }
}

// One row: A is 2, and its factor is 0.5.
fn solve_one(
    call: SolverCall,
    r: &mut [f64],
    x: &mut [f64],
    q: &mut [f64],
    p: &mut [f64],
    history: &mut [f64],
    tolerance: f64,
    limit: u32,
) -> Answer<Solution> {
    let starts = [0u32, 0];
    let offsets = [0u32, 0];
    let splits = [0u32];
    let none = [0u32; 1];
    let nothing = [0.0; 1];
    let diagonal = [2.0];
    let inverse = [0.5];
    if call == SolverCall::Plain {
        return plain(
            1,
            r,
            x,
            q,
            p,
            tolerance,
            limit,
            &offsets,
            &none[0..0],
            &nothing[0..0],
            &diagonal,
            history,
        );
    }
    let entries = [0u32; 1];
    let zeros = [0.0; 1];
    preconditioned(
        1,
        r,
        x,
        q,
        p,
        tolerance,
        limit,
        &starts,
        &entries[0..0],
        &zeros[0..0],
        &diagonal,
        &offsets,
        &none[0..0],
        &splits,
        &inverse,
        &nothing[0..0],
        history,
    )
}

// Document 01's cases 10 and 11, with a right side, a tolerance and a limit.
pub fn one_row(call: SolverCall, right: f64, tolerance: f64, limit: u32) -> Left {
    let mut r = [right; 12];
    let mut x = rising();
    let mut q = rising();
    let mut p = rising();
    let mut history = rising();
    let answer = solve_one(
        call,
        &mut r[0..1],
        &mut x[0..1],
        &mut q[0..1],
        &mut p[0..1],
        &mut history,
        tolerance,
        limit,
    );
    Left {
        answer,
        r,
        x,
        q,
        p,
        history,
    }
}
