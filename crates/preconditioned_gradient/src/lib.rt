// Document 01's `preconditioned_conjugate_gradient`, each call checked, at each size.
// r is the right side and becomes the residual, x becomes the solution. A is lent as starts, entries, its values and its diagonal, the factor as offsets, columns, splits, its diagonal and its values. A call that refuses changes nothing.
#![tactic(auto)]

pub mod unchecked;

ghost use Rattle.std.specs.Prelude.{◌≡◌, ◌≤◌, length, take};
ghost use Rattle.std.specs.Float.{binary64};
ghost use Rattle.solvers.specs.Method.{matrix_of};
ghost use Rattle.solvers.specs.Solvers.{factor_as};
ghost use Rattle.solvers.specs.Promise.{lent_of};
ghost use Rattle.preconditioned_gradient.specs.Answers.{solution_of, PreconditionedSolves};

use advancing::unchecked::last_number;
use answers::Answer;
use blocks::Size;
use solvers::{Solution, Verdict};
use unchecked::check_preconditioned;

// The answer, from how many norms were written to the history.
fn preconditioned_solution(history: &[f64], count: usize, limit: u32) -> Solution
    requires { (count ≤ length history.now) × (count ≤ 4098) }
    ensures { result ≡ solution_of binary64 limit (take count history.now) }
{
    let last = last_number(history, count);
    let count = count as u32;
    Solution {
        count,
        last,
        verdict: Verdict::of_preconditioned(limit, count),
    }
}

// x becomes what A and the right side r solve to, in at most `limit` steps, each preconditioned by the factor: the count of norms, the last of them, and the verdict.
pub fn preconditioned_conjugate_gradient<S: Size>(
    r: &mut [f64],
    x: &mut [f64],
    pr: &mut [f64],
    p: &mut [f64],
    tolerance: f64,
    limit: u32,
    starts: &[u32],
    entries: &[u32],
    a_values: &[f64],
    a_diagonal: &[f64],
    offsets: &[u32],
    columns: &[u32],
    splits: &[u32],
    diagonal: &[f64],
    values: &[f64],
    history: &mut [f64],
) -> Answer<Solution>
    ensures { PreconditionedSolves S.DIM limit (matrix_of starts.now entries.now a_values.now a_diagonal.now) (factor_as offsets.now columns.now splits.now diagonal.now values.now) tolerance
        (lent_of r.old x.old pr.old p.old history.old) result (lent_of r.new x.new pr.new p.new history.new) }
{
    let most = limit as usize;
    check_preconditioned::<S>(
        most,
        starts,
        entries,
        a_values.len(),
        a_diagonal.len(),
        offsets,
        columns,
        splits,
        diagonal.len(),
        values.len(),
        r.len(),
        x.len(),
        pr.len(),
        p.len(),
        history.len(),
    )?;
    let count = factor_steps::unchecked::preconditioned_conjugate_gradient::<S>(
        r, x, pr, p, history, starts, entries, a_values, a_diagonal, offsets, columns, splits,
        diagonal, values, tolerance, most,
    );
    Ok(preconditioned_solution(history, count, limit))
}
