// A step along p, at each size, and what else both solvers share: a check of their vectors, and the last number of a history.
// These functions ask of their callers that all fits, so that no user calls them.
ghost use Rattle.std.specs.Prelude.{◌≡◌, ◌≤◌, length, take};
ghost use Rattle.std.specs.Float.{binary64};
ghost use Rattle.solvers.specs.Checks.{wrong_vectors};
ghost use Rattle.solvers.specs.Method.{matrix_of, state_of, moved};
ghost use Rattle.solvers.specs.Verdict.{last_of};
ghost use Rattle.advancing.specs.Steps.{Ready, Advanced};

use blocks::Size;
use matrix::unchecked::mult_vec;
use vectors::unchecked::{add_scaled_vector, dot};

// q becomes A p, x moves by alpha p and r by -alpha A p, with alpha = rho / (p·A p). The result is the new r·r.
pub fn advance<S: Size>(
    r: &mut [f64],
    x: &mut [f64],
    q: &mut [f64],
    p: &[f64],
    offsets: &[u32],
    columns: &[u32],
    values: &[f64],
    diagonal: &[f64],
    rho: f64,
) -> f64
    requires { Ready S.DIM (matrix_of offsets.now columns.now values.now diagonal.now) (length r.old) (length x.old) (length q.old) (length p.now) }
    ensures { Advanced binary64 S.DIM (matrix_of offsets.now columns.now values.now diagonal.now)
        (moved binary64 S.DIM (matrix_of offsets.now columns.now values.now diagonal.now) (state_of r.old x.old q.old p.now rho))
        r.new x.new q.new result }
{
    let rows = offsets.len() - 1;
    mult_vec::<S>(q, 0.0, 1.0, offsets, columns, values, diagonal, p);
    let alpha = rho / dot::<S>(rows, p, q);
    add_scaled_vector(x, alpha, p);
    add_scaled_vector(r, -alpha, q);
    dot::<S>(rows, r, r)
}

// Whether one of the four vectors does not have N values to a row.
pub fn are_wrong_vectors<S: Size>(rows: usize, r: usize, x: usize, q: usize, p: usize) -> bool
    requires { rows ≤ 4096 }
    ensures { result ≡ wrong_vectors rows S.DIM r x q p }
{
    let length = S::DIM * rows;
    if r != length {
        return true;
    }
    if x != length {
        return true;
    }
    if q != length {
        return true;
    }
    p != length
}

// The last of the first `count` numbers of a history, and +0 if there is none.
pub fn last_number(history: &[f64], count: usize) -> f64
    requires { count ≤ length history.now }
    ensures { result ≡ last_of binary64 (take count history.now) }
{
    if count == 0 {
        return 0.0;
    }
    history[count - 1]
}
