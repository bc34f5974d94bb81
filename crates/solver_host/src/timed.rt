// The solvers on words, for a benchmark: no bytes are coded, so that none are timed. Each is the public call at its N.
// 2 for an N other than 1, 2, 3, after 1 and 10.
ghost use Rattle.std.specs.Float.{binary64};
ghost use Rattle.solvers.specs.Method.{matrix_of};
ghost use Rattle.solvers.specs.Solvers.{factor_as};
ghost use Rattle.solvers.specs.Promise.{Lent, lent_of, left_by};
ghost use Rattle.gradient.specs.Answers.{solution_of, plain_run};
ghost use Rattle.preconditioned_gradient.specs.Answers.{solution_of as norms_of, preconditioned_run};
ghost use Rattle.solve_outcomes.specs.Numbers.{FinishedSolve};
ghost use Rattle.numbered_gradient.specs.Calls.{plain_call_checks};
ghost use Rattle.numbered_preconditioned.specs.Calls.{preconditioned_call_checks};

use solve_outcomes::{Solved, solved_of};

#[unsafe(no_mangle)]
pub extern "C" fn pierbramble_timed_conjugate_gradient(
    dim: u32,
    r: &mut [f64],
    u: &mut [f64],
    ap: &mut [f64],
    p: &mut [f64],
    tolerance: f64,
    limit: u32,
    offsets: &[u32],
    columns: &[u32],
    values: &[f64],
    diagonal: &[f64],
    history: &mut [f64],
) -> Solved
    ensures { FinishedSolve {A = Lent} binary64 (plain_call_checks dim limit (matrix_of offsets.now columns.now values.now diagonal.now) (lent_of r.old u.old ap.old p.old history.old))
        (solution_of binary64 tolerance (plain_run dim limit (matrix_of offsets.now columns.now values.now diagonal.now) tolerance (lent_of r.old u.old ap.old p.old history.old)).history) result
        (left_by (plain_run dim limit (matrix_of offsets.now columns.now values.now diagonal.now) tolerance (lent_of r.old u.old ap.old p.old history.old)) history.old)
        (lent_of r.old u.old ap.old p.old history.old) (lent_of r.new u.new ap.new p.new history.new) }
{
    solved_of(numbered_gradient::conjugate_gradient(
        dim, r, u, ap, p, tolerance, limit, offsets, columns, values, diagonal, history,
    ))
}

#[unsafe(no_mangle)]
pub extern "C" fn pierbramble_timed_preconditioned_conjugate_gradient(
    dim: u32,
    r: &mut [f64],
    x: &mut [f64],
    pr: &mut [f64],
    p: &mut [f64],
    tolerance: f64,
    limit: u32,
    starts: &[u32],
    entries: &[u32],
    a_values: &[f64],
    a_diagonal: &[f64],
    offsets: &[u32],
    columns: &[u32],
    splits: &[u32],
    diagonal: &[f64],
    values: &[f64],
    history: &mut [f64],
) -> Solved
    ensures { FinishedSolve {A = Lent} binary64 (preconditioned_call_checks dim limit (matrix_of starts.now entries.now a_values.now a_diagonal.now) (factor_as offsets.now columns.now splits.now diagonal.now values.now) (lent_of r.old x.old pr.old p.old history.old))
        (norms_of binary64 limit (preconditioned_run dim limit (matrix_of starts.now entries.now a_values.now a_diagonal.now) (factor_as offsets.now columns.now splits.now diagonal.now values.now) tolerance (lent_of r.old x.old pr.old p.old history.old)).history) result
        (left_by (preconditioned_run dim limit (matrix_of starts.now entries.now a_values.now a_diagonal.now) (factor_as offsets.now columns.now splits.now diagonal.now values.now) tolerance (lent_of r.old x.old pr.old p.old history.old)) history.old)
        (lent_of r.old x.old pr.old p.old history.old) (lent_of r.new x.new pr.new p.new history.new) }
{
    solved_of(numbered_preconditioned::preconditioned_conjugate_gradient(
        dim, r, x, pr, p, tolerance, limit, starts, entries, a_values, a_diagonal, offsets,
        columns, splits, diagonal, values, history,
    ))
}
