// Document 01's `conjugate_gradient`, each call checked, at each size.
// r is the right side and becomes the residual, u becomes the solution. A call that refuses changes nothing.
#![tactic(auto)]

pub mod unchecked;

ghost use Rattle.std.specs.Prelude.{◌≡◌, ◌≤◌, length, take};
ghost use Rattle.std.specs.Float.{binary64};
ghost use Rattle.solvers.specs.Method.{matrix_of};
ghost use Rattle.solvers.specs.Promise.{lent_of};
ghost use Rattle.gradient.specs.Answers.{solution_of, PlainSolves};

use advancing::unchecked::last_number;
use answers::Answer;
use blocks::Size;
use solvers::{Solution, Verdict};
use unchecked::check_plain;

// The answer, from how many ratios were written to the history.
fn plain_solution(history: &[f64], count: usize, tolerance: f64) -> Solution
    requires { (count ≤ length history.now) × (count ≤ 4096) }
    ensures { result ≡ solution_of binary64 tolerance (take count history.now) }
{
    let last = last_number(history, count);
    let count = count as u32;
    Solution {
        count,
        last,
        verdict: Verdict::of_plain(tolerance, count, last),
    }
}

// u becomes what A and the right side r solve to, in at most `limit` steps: the count of ratios, the last of them, and the verdict.
pub fn conjugate_gradient<S: Size>(
    r: &mut [f64],
    u: &mut [f64],
    ap: &mut [f64],
    p: &mut [f64],
    tolerance: f64,
    limit: u32,
    offsets: &[u32],
    columns: &[u32],
    values: &[f64],
    diagonal: &[f64],
    history: &mut [f64],
) -> Answer<Solution>
    ensures { PlainSolves S.DIM limit (matrix_of offsets.now columns.now values.now diagonal.now) tolerance
        (lent_of r.old u.old ap.old p.old history.old) result (lent_of r.new u.new ap.new p.new history.new) }
{
    let most = limit as usize;
    check_plain::<S>(
        most,
        offsets,
        columns,
        values.len(),
        diagonal.len(),
        r.len(),
        u.len(),
        ap.len(),
        p.len(),
        history.len(),
    )?;
    let count = unchecked::conjugate_gradient::<S>(
        r, u, ap, p, history, offsets, columns, values, diagonal, tolerance, most,
    );
    Ok(plain_solution(history, count, tolerance))
}
