// The plain solver with N as a number, on words. An N other than 1, 2, 3 is 2 as a wrong length is, after 1 and 10.
// A call that refuses changes nothing.
#![tactic(auto)]

ghost use Rattle.std.specs.Prelude.{◌≡◌, cond};
ghost use Rattle.std.specs.Float.{binary64};
ghost use Rattle.answers.specs.Numbers.{refusal_number};
ghost use Rattle.answers.specs.Limits.{iterations_out_of_range};
ghost use Rattle.solvers.specs.Method.{matrix_of};
ghost use Rattle.solvers.specs.Promise.{Lent, lent_of, left_by};
ghost use Rattle.gradient.specs.Answers.{solution_of, plain_run};
ghost use Rattle.solve_outcomes.specs.Ends.{SolveEnds};
ghost use Rattle.numbered_gradient.specs.Calls.{plain_call_checks};

use answers::{Answer, Iterations, Refusal};
use blocks::{One, Three, Two};
use patterns::is_too_large;
use solvers::Solution;

// Why a solve at another N refuses: the sizes of its patterns are checked first, and then its limit.
pub fn solve_refusal(large: bool, limit: u32) -> Refusal
    ensures { refusal_number result ≡ cond large 1 (cond (iterations_out_of_range limit) 10 2) }
{
    if large {
        return Refusal::Size;
    }
    if Iterations(limit as usize).out_of_range() {
        return Refusal::Limit;
    }
    Refusal::Shape
}

// u becomes what A and the right side r solve to, in at most `limit` steps: the count of ratios, the last of them, and the verdict.
pub fn conjugate_gradient(
    dim: u32,
    r: &mut [f64],
    u: &mut [f64],
    ap: &mut [f64],
    p: &mut [f64],
    tolerance: f64,
    limit: u32,
    offsets: &[u32],
    columns: &[u32],
    values: &[f64],
    diagonal: &[f64],
    history: &mut [f64],
) -> Answer<Solution>
    ensures { SolveEnds {A = Lent} (plain_call_checks dim limit (matrix_of offsets.now columns.now values.now diagonal.now) (lent_of r.old u.old ap.old p.old history.old))
        (solution_of binary64 tolerance (plain_run dim limit (matrix_of offsets.now columns.now values.now diagonal.now) tolerance (lent_of r.old u.old ap.old p.old history.old)).history) result
        (left_by (plain_run dim limit (matrix_of offsets.now columns.now values.now diagonal.now) tolerance (lent_of r.old u.old ap.old p.old history.old)) history.old)
        (lent_of r.old u.old ap.old p.old history.old) (lent_of r.new u.new ap.new p.new history.new) }
{
    match dim {
        1 => gradient::conjugate_gradient::<One>(
            r, u, ap, p, tolerance, limit, offsets, columns, values, diagonal, history,
        ),
        2 => gradient::conjugate_gradient::<Two>(
            r, u, ap, p, tolerance, limit, offsets, columns, values, diagonal, history,
        ),
        3 => gradient::conjugate_gradient::<Three>(
            r, u, ap, p, tolerance, limit, offsets, columns, values, diagonal, history,
        ),
        _ => Err(solve_refusal(is_too_large(offsets.len(), columns.len()), limit)),
    }
}
