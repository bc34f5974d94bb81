// The preconditioned solver with N as a number, on words. An N other than 1, 2, 3 is 2 as a wrong length is, after 1 and 10.
// A call that refuses changes nothing.
#![tactic(auto)]

ghost use Rattle.std.specs.Prelude.{◌≡◌, ◌||◌};
ghost use Rattle.std.specs.Float.{binary64};
ghost use Rattle.patterns.specs.Checks.{too_large};
ghost use Rattle.solvers.specs.Method.{matrix_of};
ghost use Rattle.solvers.specs.Solvers.{factor_as};
ghost use Rattle.solvers.specs.Promise.{Lent, lent_of, left_by};
ghost use Rattle.preconditioned_gradient.specs.Answers.{solution_of, preconditioned_run};
ghost use Rattle.solve_outcomes.specs.Ends.{SolveEnds};
ghost use Rattle.numbered_preconditioned.specs.Calls.{preconditioned_call_checks};

use answers::Answer;
use blocks::{One, Three, Two};
use numbered_gradient::solve_refusal;
use patterns::is_too_large;
use solvers::Solution;

// Whether the matrix or its factor is too large.
pub fn is_either_too_large(starts: usize, entries: usize, offsets: usize, columns: usize) -> bool
    ensures { result ≡ too_large starts entries || too_large offsets columns }
{
    if is_too_large(starts, entries) {
        return true;
    }
    is_too_large(offsets, columns)
}

// x becomes what A and the right side r solve to, in at most `limit` steps, each preconditioned by the factor: the count of norms, the last of them, and the verdict.
pub fn preconditioned_conjugate_gradient(
    dim: u32,
    r: &mut [f64],
    x: &mut [f64],
    pr: &mut [f64],
    p: &mut [f64],
    tolerance: f64,
    limit: u32,
    starts: &[u32],
    entries: &[u32],
    a_values: &[f64],
    a_diagonal: &[f64],
    offsets: &[u32],
    columns: &[u32],
    splits: &[u32],
    diagonal: &[f64],
    values: &[f64],
    history: &mut [f64],
) -> Answer<Solution>
    ensures { SolveEnds {A = Lent} (preconditioned_call_checks dim limit (matrix_of starts.now entries.now a_values.now a_diagonal.now) (factor_as offsets.now columns.now splits.now diagonal.now values.now) (lent_of r.old x.old pr.old p.old history.old))
        (solution_of binary64 limit (preconditioned_run dim limit (matrix_of starts.now entries.now a_values.now a_diagonal.now) (factor_as offsets.now columns.now splits.now diagonal.now values.now) tolerance (lent_of r.old x.old pr.old p.old history.old)).history) result
        (left_by (preconditioned_run dim limit (matrix_of starts.now entries.now a_values.now a_diagonal.now) (factor_as offsets.now columns.now splits.now diagonal.now values.now) tolerance (lent_of r.old x.old pr.old p.old history.old)) history.old)
        (lent_of r.old x.old pr.old p.old history.old) (lent_of r.new x.new pr.new p.new history.new) }
{
    match dim {
        1 => preconditioned_gradient::preconditioned_conjugate_gradient::<One>(
            r, x, pr, p, tolerance, limit, starts, entries, a_values, a_diagonal, offsets, columns,
            splits, diagonal, values, history,
        ),
        2 => preconditioned_gradient::preconditioned_conjugate_gradient::<Two>(
            r, x, pr, p, tolerance, limit, starts, entries, a_values, a_diagonal, offsets, columns,
            splits, diagonal, values, history,
        ),
        3 => preconditioned_gradient::preconditioned_conjugate_gradient::<Three>(
            r, x, pr, p, tolerance, limit, starts, entries, a_values, a_diagonal, offsets, columns,
            splits, diagonal, values, history,
        ),
        _ => {
            let large = is_either_too_large(
                starts.len(),
                entries.len(),
                offsets.len(),
                columns.len(),
            );
            Err(solve_refusal(large, limit))
        }
    }
}
