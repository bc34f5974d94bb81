// Both solvers, conjugate_gradient and preconditioned_conjugate_gradient on 4,096 rows in a ring, with a factor that has no entries.
// The vectors are too long to be shown: all their words are folded into one, and the history is shown. Nothing is printed here, so that nothing is assumed.
#![tactic(auto)]

use answers::Answer;
use limits::filled::fill;
use limits::ring::fill_offsets;
use limits::sizes::{values_a_block, values_a_row};
use ring_systems::{fill_columns, fill_diagonal, fill_inverses, fill_values};
use solver_calls::{SolverCall, plain, preconditioned};
use solvers::Solution;

// The answer, the words that are left of r, u or x, ap or pr, and p, folded, and the history with the words past its count.
#[derive(Drop)]
pub struct Folded {
    pub answer: Answer<Solution>,
    pub r: u64,
    pub x: u64,
    pub q: u64,
    pub p: u64,
    pub history: [f64; 24],
}

// The bits of each value are added to the word turned by one bit, whose highest becomes the lowest; what passes 64 bits falls away.
fn fold(values: &[f64]) -> u64 {
    let mut word: u64 = 0;
    for value in values {
        word = word.rotate_left(1).wrapping_add(words::bits_of(*value));
    }
    word
}

// A's pattern is lent as it is, the factor's is made here.
fn solve_by_factor(
    dim: usize,
    r: &mut [f64],
    x: &mut [f64],
    pr: &mut [f64],
    p: &mut [f64],
    history: &mut [f64],
    starts: &[u32],
    entries: &[u32],
    a_values: &[f64],
    a_diagonal: &[f64],
) -> Answer<Solution> {
    let offsets = [0u32; 4097];
    let columns = [0u32; 1];
    let splits = [0u32; 4096];
    let values = [0.0; 1];
    let mut diagonal = [0.0; 36864];
    fill_inverses(&mut diagonal, dim);
    preconditioned(
        dim,
        r,
        x,
        pr,
        p,
        1.0 / 1024.0,
        20,
        starts,
        entries,
        a_values,
        a_diagonal,
        &offsets,
        &columns[0..0],
        &splits,
        &diagonal[0..4096 * values_a_block(dim)],
        &values[0..0],
        history,
    )
}

fn solve_with(
    call: SolverCall,
    dim: usize,
    r: &mut [f64],
    x: &mut [f64],
    q: &mut [f64],
    p: &mut [f64],
    history: &mut [f64],
    offsets: &[u32],
    columns: &[u32],
    values: &[f64],
    diagonal: &[f64],
) -> Answer<Solution> {
    if call == SolverCall::Plain {
        return plain(
            dim,
            r,
            x,
            q,
            p,
            1.0 / 1024.0,
            20,
            offsets,
            columns,
            values,
            diagonal,
            history,
        );
    }
    solve_by_factor(dim, r, x, q, p, history, offsets, columns, values, diagonal)
}

// A of 4,096 rows in a ring.
fn solve(
    call: SolverCall,
    dim: usize,
    r: &mut [f64],
    x: &mut [f64],
    q: &mut [f64],
    p: &mut [f64],
    history: &mut [f64],
) -> Answer<Solution> {
    let size = values_a_block(dim);
    let mut offsets = [0u32; 4097];
    let mut columns = [0u32; 8192];
    let mut values = [0.0; 73728];
    let mut diagonal = [0.0; 36864];
    fill_offsets(&mut offsets, 2);
    fill_columns(&mut columns, 4096);
    fill_values(&mut values, dim, 8192, 1.0);
    fill_diagonal(&mut diagonal, dim, 1.0);
    solve_with(
        call,
        dim,
        r,
        x,
        q,
        p,
        history,
        &offsets,
        &columns,
        &values[0..8192 * size],
        &diagonal[0..4096 * size],
    )
}

// A solve with lent vectors whose words rise by one. The room past them is folded too.
pub fn solved(call: SolverCall, dim: usize) -> Folded {
    let count = 4096 * values_a_row(dim);
    let mut r = [0.0; 12288];
    let mut x = [0.0; 12288];
    let mut q = [0.0; 12288];
    let mut p = [0.0; 12288];
    let mut history = [0.0; 24];
    fill(&mut r);
    fill(&mut x);
    fill(&mut q);
    fill(&mut p);
    fill(&mut history);
    let answer = solve(
        call,
        dim,
        &mut r[0..count],
        &mut x[0..count],
        &mut q[0..count],
        &mut p[0..count],
        &mut history,
    );
    Folded {
        answer,
        r: fold(&r),
        x: fold(&x),
        q: fold(&q),
        p: fold(&p),
        history,
    }
}
