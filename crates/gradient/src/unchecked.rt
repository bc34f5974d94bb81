// The conjugate gradient method without checks, at each size, and its checks one after the other.
// These functions ask that the matrix is valid and that the lengths fit it, so that no user calls them.
ghost use Rattle.std.specs.Prelude.{◌≡◌, ◌≤◌, length};
ghost use Rattle.std.specs.Float.{binary64};
ghost use Rattle.answers.specs.Checks.{first_of};
ghost use Rattle.answers.specs.Numbers.{number_of};
ghost use Rattle.solvers.specs.Checks.{wrong_plain, plain_lengths, plain_checks};
ghost use Rattle.solvers.specs.Method.{matrix_of, state_of, run};
ghost use Rattle.solvers.specs.Solvers.{plain, conjugate_gradient};
ghost use Rattle.advancing.specs.Steps.{Ready, Leaves};

use advancing::unchecked::{advance, are_wrong_vectors};
use answers::{Answer, Iterations, Refusal};
use blocks::Size;
use factor_check::unchecked::is_wrong_factor;
use patterns::is_too_large;
use patterns::unchecked::is_valid_pattern;
use root::square_root;
use solvers::Tolerance;
use vectors::unchecked::{copy, dot, scale_and_add_vec, set_zero};

// At most `limit` steps: how many were made. Each writes its ratio to the history, and one below the tolerance is the last.
fn turns<S: Size>(
    r: &mut [f64],
    x: &mut [f64],
    q: &mut [f64],
    p: &mut [f64],
    history: &mut [f64],
    offsets: &[u32],
    columns: &[u32],
    values: &[f64],
    diagonal: &[f64],
    first: f64,
    inverse: f64,
    tolerance: f64,
    limit: usize,
) -> usize
    requires { (Ready S.DIM (matrix_of offsets.now columns.now values.now diagonal.now) (length r.old) (length x.old) (length q.old) (length p.old)) × (limit ≤ length history.old) }
    ensures { Leaves (run (plain binary64 S.DIM (matrix_of offsets.now columns.now values.now diagonal.now) tolerance inverse) limit (state_of r.old x.old q.old p.old first))
        history.old r.new x.new q.new p.new history.new result }
{
    let mut rho = first;
    let mut k = 0;
    while k < limit {
        let square = advance::<S>(r, x, q, p, offsets, columns, values, diagonal, rho);
        let ratio = square_root(square * inverse);
        history[k] = ratio;
        k += 1;
        if ratio < tolerance {
            return k;
        }
        scale_and_add_vec(p, square / rho, r);
        rho = square;
    }
    k
}

// The solve from r, the right side: how many ratios were written to the history.
pub fn conjugate_gradient<S: Size>(
    r: &mut [f64],
    u: &mut [f64],
    ap: &mut [f64],
    p: &mut [f64],
    history: &mut [f64],
    offsets: &[u32],
    columns: &[u32],
    values: &[f64],
    diagonal: &[f64],
    tolerance: f64,
    limit: usize,
) -> usize
    requires { (Ready S.DIM (matrix_of offsets.now columns.now values.now diagonal.now) (length r.old) (length u.old) (length ap.old) (length p.old)) × (limit ≤ length history.old) }
    ensures { Leaves (conjugate_gradient binary64 S.DIM (matrix_of offsets.now columns.now values.now diagonal.now) tolerance limit r.old u.old ap.old p.old)
        history.old r.new u.new ap.new p.new history.new result }
{
    set_zero(u);
    let square = dot::<S>(offsets.len() - 1, r, r);
    if square < Tolerance::EPSILON {
        return 0;
    }
    copy(p, r);
    turns::<S>(
        r,
        u,
        ap,
        p,
        history,
        offsets,
        columns,
        values,
        diagonal,
        square,
        1.0 / square,
        tolerance,
        limit,
    )
}

// Whether a slice has the wrong length. The matrix is asked as a factor is that has a split to each row.
fn is_misshapen<S: Size>(
    limit: usize,
    rows: usize,
    columns: usize,
    values: usize,
    diagonal: usize,
    r: usize,
    u: usize,
    ap: usize,
    p: usize,
    history: usize,
) -> bool
    requires { (rows ≤ 4096) × (columns ≤ 65535) }
    ensures { result ≡ wrong_plain S.DIM limit rows columns values diagonal r u ap p history }
{
    if is_wrong_factor::<S>(rows, columns, rows, diagonal, values) {
        return true;
    }
    if are_wrong_vectors::<S>(rows, r, u, ap, p) {
        return true;
    }
    history < limit
}

// The checks by the lengths: 1, then 10, then 2.
fn check_lengths<S: Size>(
    limit: usize,
    offsets: usize,
    columns: usize,
    values: usize,
    diagonal: usize,
    r: usize,
    u: usize,
    ap: usize,
    p: usize,
    history: usize,
) -> Answer
    ensures { number_of result ≡ first_of (plain_lengths S.DIM limit offsets columns values diagonal r u ap p history) }
{
    if is_too_large(offsets, columns) {
        return Err(Refusal::Size);
    }
    if Iterations(limit).out_of_range() {
        return Err(Refusal::Limit);
    }
    let rows = offsets - 1;
    if is_misshapen::<S>(limit, rows, columns, values, diagonal, r, u, ap, p, history) {
        return Err(Refusal::Shape);
    }
    Ok(())
}

// All checks: then 3, of the pattern.
pub fn check_plain<S: Size>(
    limit: usize,
    offsets: &[u32],
    columns: &[u32],
    values: usize,
    diagonal: usize,
    r: usize,
    u: usize,
    ap: usize,
    p: usize,
    history: usize,
) -> Answer
    ensures { number_of result ≡ first_of (plain_checks S.DIM limit offsets.now columns.now values diagonal r u ap p history) }
{
    check_lengths::<S>(
        limit,
        offsets.len(),
        columns.len(),
        values,
        diagonal,
        r,
        u,
        ap,
        p,
        history,
    )?;
    if !is_valid_pattern(offsets, columns) {
        return Err(Refusal::Pattern);
    }
    Ok(())
}
