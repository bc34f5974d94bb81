// The lines of the fixed list whose calls are the solvers: each is run and compared word for word.
// A line's words are the count of each slice, the first four slices, the tolerance and the limit, the other slices, the answer, and what the call leaves.
#![tactic(auto)]

ghost use Rattle.std.specs.Prelude.{◌≤◌};

use lines::line::{Line, after};
use solve_outcomes::{Solved, solved_of};

#[derive(Clone, Copy, PartialEq, Eq)]
pub enum SolverCall {
    ConjugateGradient,
    PreconditionedConjugateGradient,
}

// Whether an answer is the one from a place on: number, row 0, count, verdict and last number; any NaN is a NaN.
fn is_answer(line: &Line, at: usize, solved: Solved) -> bool {
    line.is_answer(at, solved.number)
        && line.word(after(at, 2)) == u64::from(solved.count)
        && line.word(after(at, 3)) == u64::from(solved.verdict)
        && line.are_values(after(at, 4), &[solved.last])
}

// Whether the history of slice k is the one that the line has after the vectors.
fn is_history(line: &Line, at: usize, k: usize, history: &[f64; 128]) -> bool {
    line.are_values(line.place(after(at, 5), 4), &history[..line.count(k)])
}

// Whether the four vectors are those after an answer.
fn are_left(line: &Line, at: usize, vectors: [&[f64; 128]; 4]) -> bool {
    let first = after(at, 5);
    for (k, vector) in vectors.iter().enumerate() {
        if !line.are_values(line.place(first, k), &vector[..line.count(k)]) {
            return false;
        }
    }
    true
}

// The matrix stands after the tolerance and the limit.
fn plain_agrees(dim: u32, line: &Line) -> bool {
    let mut r = line.values(9, 0);
    let mut u = line.values(9, 1);
    let mut ap = line.values(9, 2);
    let mut p = line.values(9, 3);
    let offsets = line.indexes(11, 4);
    let columns = line.indexes(11, 5);
    let values = line.values(11, 6);
    let diagonal = line.values(11, 7);
    let mut history = line.values(11, 8);
    let solve = numbered_gradient::conjugate_gradient(
        dim,
        &mut r[..line.count(0)],
        &mut u[..line.count(1)],
        &mut ap[..line.count(2)],
        &mut p[..line.count(3)],
        line.value(line.place(9, 4)),
        line.number(line.place(10, 4)),
        &offsets[..line.count(4)],
        &columns[..line.count(5)],
        &values[..line.count(6)],
        &diagonal[..line.count(7)],
        &mut history[..line.count(8)],
    );
    let at = SolverCall::ConjugateGradient.answer_at(line);
    is_answer(line, at, solved_of(solve))
        && is_history(line, at, 8, &history)
        && are_left(line, at, [&r, &u, &ap, &p])
}

// After the matrix stands the factor.
fn preconditioned_agrees(dim: u32, line: &Line) -> bool {
    let mut r = line.values(14, 0);
    let mut x = line.values(14, 1);
    let mut pr = line.values(14, 2);
    let mut p = line.values(14, 3);
    let starts = line.indexes(16, 4);
    let entries = line.indexes(16, 5);
    let a_values = line.values(16, 6);
    let a_diagonal = line.values(16, 7);
    let offsets = line.indexes(16, 8);
    let columns = line.indexes(16, 9);
    let splits = line.indexes(16, 10);
    let diagonal = line.values(16, 11);
    let values = line.values(16, 12);
    let mut history = line.values(16, 13);
    let solve = numbered_preconditioned::preconditioned_conjugate_gradient(
        dim,
        &mut r[..line.count(0)],
        &mut x[..line.count(1)],
        &mut pr[..line.count(2)],
        &mut p[..line.count(3)],
        line.value(line.place(14, 4)),
        line.number(line.place(15, 4)),
        &starts[..line.count(4)],
        &entries[..line.count(5)],
        &a_values[..line.count(6)],
        &a_diagonal[..line.count(7)],
        &offsets[..line.count(8)],
        &columns[..line.count(9)],
        &splits[..line.count(10)],
        &diagonal[..line.count(11)],
        &values[..line.count(12)],
        &mut history[..line.count(13)],
    );
    let at = SolverCall::PreconditionedConjugateGradient.answer_at(line);
    is_answer(line, at, solved_of(solve))
        && is_history(line, at, 13, &history)
        && are_left(line, at, [&r, &x, &pr, &p])
}

impl SolverCall {
    pub fn name(self) -> &'static str {
        match self {
            SolverCall::ConjugateGradient => "conjugate_gradient",
            SolverCall::PreconditionedConjugateGradient => "preconditioned_conjugate_gradient",
        }
    }

    // How many slices the call is lent; the last one is its history.
    fn slices(self) -> usize
        ensures { (1 ≤ result) × (result ≤ 14) }
    {
        match self {
            SolverCall::ConjugateGradient => 9,
            SolverCall::PreconditionedConjugateGradient => 14,
        }
    }

    // Where the answer of a line stands: after the counts, the slices, the tolerance and the limit.
    fn answer_at(self, line: &Line) -> usize {
        let slices = self.slices();
        line.place(slices + 2, slices)
    }

    // Where what the call leaves ends: after five words of its answer, four vectors and the history.
    pub fn words(self, line: &Line) -> usize {
        let vectors = line.place(after(self.answer_at(line), 5), 4);
        after(vectors, line.count(self.slices() - 1))
    }

    // Whether the call answers as the original: the number, the count, the verdict, the last number and every word that it leaves.
    pub fn agrees(self, dim: u32, line: &Line) -> bool {
        match self {
            SolverCall::ConjugateGradient => plain_agrees(dim, line),
            SolverCall::PreconditionedConjugateGradient => preconditioned_agrees(dim, line),
        }
    }
}
