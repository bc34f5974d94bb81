// The loop of the preconditioned method and its start. The matrix is lent as starts, entries, terms and its own blocks, the factor as offsets, columns, splits, diagonal and values.
// These functions ask that both are valid and that the lengths fit them, so that no user calls them.
ghost use Rattle.std.specs.Prelude.{◌≡◌, ◌+◌, ◌*◌, ◌≤◌, length};
ghost use Rattle.std.specs.Float.{binary64};
ghost use Rattle.patterns.specs.Pattern.{rows_of};
ghost use Rattle.factor_check.specs.Fits.{FactorFits};
ghost use Rattle.solvers.specs.Method.{matrix_of, state_of, run};
ghost use Rattle.solvers.specs.Solvers.{factor_as, by_factor, with_norms, preconditioned_gradient};
ghost use Rattle.advancing.specs.Steps.{Ready, Leaves};
ghost use Rattle.factor_steps.specs.Steps.{Beside, Preconditions};

use advancing::unchecked::advance;
use blocks::Size;
use root::square_root;
use solvers::Tolerance;
use solving::unchecked::solve_preconditioning_vec;
use vectors::unchecked::{copy, dot, scale_and_add_vec, set_zero};

// q becomes P r. The result is r·P r. This is the one place that solves with the factor, so that the solve is compiled into it.
fn precondition<S: Size>(
    q: &mut [f64],
    r: &[f64],
    offsets: &[u32],
    columns: &[u32],
    splits: &[u32],
    diagonal: &[f64],
    values: &[f64],
) -> f64
    requires { (FactorFits S.DIM offsets.now columns.now splits.now (length diagonal.now) (length values.now)) × (length q.old ≡ S.DIM * rows_of offsets.now) × (length r.now ≡ S.DIM * rows_of offsets.now) }
    ensures { Preconditions binary64 S.DIM (factor_as offsets.now columns.now splits.now diagonal.now values.now) r.now q.old q.new result }
{
    copy(q, r);
    solve_preconditioning_vec::<S>(q, offsets, columns, splits, diagonal, values);
    dot::<S>(offsets.len() - 1, r, q)
}

// At most `limit` steps after the first norm: how many norms were written. A step whose ratio is below the tolerance is the last; if none is, the last norm is written once more.
fn turns<S: Size>(
    r: &mut [f64],
    x: &mut [f64],
    q: &mut [f64],
    p: &mut [f64],
    history: &mut [f64],
    starts: &[u32],
    entries: &[u32],
    terms: &[f64],
    own: &[f64],
    offsets: &[u32],
    columns: &[u32],
    splits: &[u32],
    diagonal: &[f64],
    values: &[f64],
    norm: f64,
    first: f64,
    inverse: f64,
    tolerance: f64,
    limit: usize,
) -> usize
    requires { (Ready S.DIM (matrix_of starts.now entries.now terms.now own.now) (length r.old) (length x.old) (length q.old) (length p.old)) × (Beside S.DIM (matrix_of starts.now entries.now terms.now own.now) (factor_as offsets.now columns.now splits.now diagonal.now values.now)) × (limit + 2 ≤ length history.old) × (limit ≤ 4096) }
    ensures { Leaves (with_norms binary64 S.DIM (matrix_of starts.now entries.now terms.now own.now) norm (run (by_factor binary64 S.DIM (matrix_of starts.now entries.now terms.now own.now) (factor_as offsets.now columns.now splits.now diagonal.now values.now) tolerance inverse) limit (state_of r.old x.old q.old p.old first)))
        history.old r.new x.new q.new p.new history.new result }
{
    history[0] = norm;
    let mut rho = first;
    let mut k = 0;
    while k < limit {
        let square = advance::<S>(r, x, q, p, starts, entries, terms, own, rho);
        k += 1;
        history[k] = square_root(square);
        if square_root(square * inverse) < tolerance {
            return k + 1;
        }
        let next = precondition::<S>(q, r, offsets, columns, splits, diagonal, values);
        scale_and_add_vec(p, next / rho, q);
        rho = next;
    }
    history[limit + 1] = square_root(dot::<S>(starts.len() - 1, r, r));
    limit + 2
}

// The solve from r, the right side: how many norms were written to the history.
pub fn preconditioned_conjugate_gradient<S: Size>(
    r: &mut [f64],
    x: &mut [f64],
    pr: &mut [f64],
    p: &mut [f64],
    history: &mut [f64],
    starts: &[u32],
    entries: &[u32],
    terms: &[f64],
    own: &[f64],
    offsets: &[u32],
    columns: &[u32],
    splits: &[u32],
    diagonal: &[f64],
    values: &[f64],
    tolerance: f64,
    limit: usize,
) -> usize
    requires { (Ready S.DIM (matrix_of starts.now entries.now terms.now own.now) (length r.old) (length x.old) (length pr.old) (length p.old)) × (Beside S.DIM (matrix_of starts.now entries.now terms.now own.now) (factor_as offsets.now columns.now splits.now diagonal.now values.now)) × (limit + 2 ≤ length history.old) × (limit ≤ 4096) }
    ensures { Leaves (preconditioned_gradient binary64 S.DIM (matrix_of starts.now entries.now terms.now own.now) (factor_as offsets.now columns.now splits.now diagonal.now values.now) tolerance limit r.old x.old pr.old p.old)
        history.old r.new x.new pr.new p.new history.new result }
{
    set_zero(x);
    let square = dot::<S>(starts.len() - 1, r, r);
    let norm = square_root(square);
    if square < Tolerance::EPSILON {
        history[0] = norm;
        return 1;
    }
    let rho = precondition::<S>(pr, r, offsets, columns, splits, diagonal, values);
    copy(p, pr);
    turns::<S>(
        r,
        x,
        pr,
        p,
        history,
        starts,
        entries,
        terms,
        own,
        offsets,
        columns,
        splits,
        diagonal,
        values,
        norm,
        rho,
        1.0 / square,
        tolerance,
        limit,
    )
}
