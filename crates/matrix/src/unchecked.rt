// The matrix operations without checks: one loop for each, and the work on a row at each size.
// These functions ask that the pattern is valid and that the lengths fit it, so that no user calls them.
ghost use Rattle.std.specs.Prelude.{◌≡◌, List, ◌+◌, ◌*◌, ◌≤◌, ◌<◌, length, Float};
ghost use Rattle.std.specs.Float.{binary64};
ghost use Rattle.lent.specs.Steps.{Within};
ghost use Rattle.answers.specs.Checks.{first_of};
ghost use Rattle.answers.specs.Numbers.{number_of};
ghost use Rattle.patterns.specs.Pattern.{rows_of};
ghost use Rattle.matrix.specs.Checks.{matrix_lengths, vector_lengths};
ghost use Rattle.base.specs.Iterate.{iterate};
ghost use Rattle.matrix.specs.Product.{add_product, add_entry, add_entries, add_row, mult_vec};
ghost use Rattle.matrix.specs.Alike.{RowsAlike};
ghost use Rattle.matrix.specs.Steps.{scale_add_row_at};
ghost use Rattle.matrix.specs.Fits.{RowFits, TurnFits, MatrixFits};

use answers::{Answer, Refusal};
use blocks::unchecked::{block_at, put_row, vector_at};
use blocks::{Size, Values};
use patterns::is_too_large;

// A row's value t, to which alpha times block e of the values times row j of x is added.
#[tactic(auto, unfolding(crate::specs::Product::add_product))]
fn add_product<S: Size>(
    t: S::Row,
    alpha: f64,
    values: &[f64],
    e: usize,
    x: &[f64],
    j: usize,
) -> S::Row
    requires { (Within (S.DIM * S.DIM) e (length values.now)) × (Within S.DIM j (length x.now)) }
    ensures { S.Row.list result ≡ add_product binary64 S.DIM alpha values.now e x.now j (S.Row.list t) }
{
    t.add(S::apply(block_at::<S>(values, e), vector_at::<S>(x, j)).scale(alpha))
}

// A row's value t, to which its entries are added in stored order.
#[tactic(auto, using(base::proofs::Iterate::iterate_none, base::proofs::Iterate::iterate_more, base::proofs::Sizes::part_fits), unfolding(crate::specs::Product::add_entries, crate::specs::Product::add_entry))]
fn add_entries<S: Size>(
    t: S::Row,
    alpha: f64,
    row: &[u32],
    first: usize,
    values: &[f64],
    x: &[f64],
) -> S::Row
    requires { RowFits S.DIM row.now first (length values.now) (length x.now) }
    ensures { S.Row.list result ≡ add_entries binary64 S.DIM alpha row.now first values.now x.now (S.Row.list t) }
{
    let mut sum = t;
    for (k, column) in row.iter().enumerate() {
        sum = add_product::<S>(sum, alpha, values, first + k, x, *column as usize);
    }
    sum
}

// Then the diagonal.
#[tactic(auto, unfolding(crate::specs::Product::add_row))]
fn add_row<S: Size>(
    t: S::Row,
    alpha: f64,
    row: &[u32],
    first: usize,
    values: &[f64],
    diagonal: &[f64],
    x: &[f64],
    i: usize,
) -> S::Row
    requires { (RowFits S.DIM row.now first (length values.now) (length x.now)) × (Within (S.DIM * S.DIM) i (length diagonal.now)) × (Within S.DIM i (length x.now)) }
    ensures { S.Row.list result ≡ add_row binary64 S.DIM alpha row.now first values.now diagonal.now x.now i (S.Row.list t) }
{
    let entries = add_entries::<S>(t, alpha, row, first, values, x);
    add_product::<S>(entries, alpha, diagonal, i, x, i)
}

// What `add_product` does, with sums that begin with their first term. A sum from +0 differs from it only where all terms are -0, and then a row's value only if it is a zero.
// At N = 3 an eighth of a row's operations is saved so.
fn add_bare<S: Size>(t: S::Row, alpha: f64, values: &[f64], e: usize, x: &[f64], j: usize) -> S::Row
    requires { (Within (S.DIM * S.DIM) e (length values.now)) × (Within S.DIM j (length x.now)) }
    ensures { (length (S.Row.list result) ≡ S.DIM)
        × ((s : List Float) → RowsAlike S.DIM s (S.Row.list t) → RowsAlike S.DIM (add_product binary64 S.DIM alpha values.now e x.now j s) (S.Row.list result)) }
{
    t.add(S::apply_bare(block_at::<S>(values, e), vector_at::<S>(x, j)).scale(alpha))
}

// Entry k of a row.
fn add_bare_entry<S: Size>(
    t: S::Row,
    alpha: f64,
    row: &[u32],
    k: usize,
    first: usize,
    values: &[f64],
    x: &[f64],
) -> S::Row
    requires { (RowFits S.DIM row.now first (length values.now) (length x.now)) × (k < length row.now) }
    ensures { (s : List Float) → RowsAlike S.DIM s (S.Row.list t) → RowsAlike S.DIM (add_entry binary64 S.DIM alpha row.now first values.now x.now k s) (S.Row.list result) }
{
    add_bare::<S>(t, alpha, values, first + k, x, row[k] as usize)
}

// Four entries in a turn: some 3 % less time at 4,096 rows of a plate, and as much more at 1,024.
fn add_bare_four<S: Size>(
    t: S::Row,
    alpha: f64,
    row: &[u32],
    k: usize,
    first: usize,
    values: &[f64],
    x: &[f64],
) -> S::Row
    requires { (RowFits S.DIM row.now first (length values.now) (length x.now)) × (k + 4 ≤ length row.now) }
    ensures { (s : List Float) → RowsAlike S.DIM s (S.Row.list t) → RowsAlike S.DIM (iterate (add_entry binary64 S.DIM alpha row.now first values.now x.now) k (k + 4) s) (S.Row.list result) }
{
    let one = add_bare_entry::<S>(t, alpha, row, k, first, values, x);
    let two = add_bare_entry::<S>(one, alpha, row, k + 1, first, values, x);
    let three = add_bare_entry::<S>(two, alpha, row, k + 2, first, values, x);
    add_bare_entry::<S>(three, alpha, row, k + 3, first, values, x)
}

// The entries from a place on, one at a time.
fn add_bare_rest<S: Size>(
    t: S::Row,
    alpha: f64,
    row: &[u32],
    from: usize,
    first: usize,
    values: &[f64],
    x: &[f64],
) -> S::Row
    requires { (RowFits S.DIM row.now first (length values.now) (length x.now)) × (from ≤ length row.now) }
    ensures { (s : List Float) → RowsAlike S.DIM s (S.Row.list t) → RowsAlike S.DIM (iterate (add_entry binary64 S.DIM alpha row.now first values.now x.now) from (length row.now) s) (S.Row.list result) }
{
    let mut sum = t;
    for k in from..row.len() {
        sum = add_bare_entry::<S>(sum, alpha, row, k, first, values, x);
    }
    sum
}

fn add_bare_entries<S: Size>(
    t: S::Row,
    alpha: f64,
    row: &[u32],
    first: usize,
    values: &[f64],
    x: &[f64],
) -> S::Row
    requires { RowFits S.DIM row.now first (length values.now) (length x.now) }
    ensures { (s : List Float) → RowsAlike S.DIM s (S.Row.list t) → RowsAlike S.DIM (add_entries binary64 S.DIM alpha row.now first values.now x.now s) (S.Row.list result) }
{
    let mut sum = t;
    // A turn takes four entries, which no range does.
    let mut k = 0;
    while k + 4 <= row.len() {
        sum = add_bare_four::<S>(sum, alpha, row, k, first, values, x);
        k += 4;
    }
    add_bare_rest::<S>(sum, alpha, row, k, first, values, x)
}

// Row i of y: scaled by beta, then the row's entries and its diagonal are added. So y is passed through once, not twice.
// At N = 3 it is first worked out with sums that begin with their first term. Where that leaves a zero, whose sign may be another one, it is worked out again.
fn mult_row<S: Size>(
    y: &mut [f64],
    i: usize,
    beta: f64,
    alpha: f64,
    row: &[u32],
    first: usize,
    values: &[f64],
    diagonal: &[f64],
    x: &[f64],
)
    requires { TurnFits S.DIM i row.now first (length values.now) (length diagonal.now) (length x.now) (length y.old) }
    ensures { y.new ≡ scale_add_row_at binary64 S.DIM beta alpha row.now first values.now diagonal.now x.now i y.old }
{
    let scaled = vector_at::<S>(y, i).scale(beta);
    if S::DIM == 3 {
        let entries = add_bare_entries::<S>(scaled, alpha, row, first, values, x);
        let quick = add_bare::<S>(entries, alpha, diagonal, i, x, i);
        if quick.has_no_zero() {
            put_row::<S>(y, i, quick);
            return;
        }
    }
    let all = add_row::<S>(scaled, alpha, row, first, values, diagonal, x, i);
    put_row::<S>(y, i, all);
}

// y scaled by beta, and alpha times the matrix times x added, row by row: a row of y is read only for itself, so that each may be scaled when it comes.
pub fn mult_vec<S: Size>(
    y: &mut [f64],
    beta: f64,
    alpha: f64,
    offsets: &[u32],
    columns: &[u32],
    values: &[f64],
    diagonal: &[f64],
    x: &[f64],
)
    requires { (MatrixFits S.DIM offsets.now columns.now (length values.now) (length diagonal.now)) × (length x.now ≡ S.DIM * rows_of offsets.now) × (length y.old ≡ S.DIM * rows_of offsets.now) }
    ensures { y.new ≡ mult_vec binary64 S.DIM offsets.now columns.now values.now diagonal.now beta alpha x.now y.old }
{
    for i in 0..offsets.len() - 1 {
        let from = offsets[i] as usize;
        let to = offsets[i + 1] as usize;
        mult_row::<S>(
            y,
            i,
            beta,
            alpha,
            &columns[from..to],
            from,
            values,
            diagonal,
            x,
        );
    }
}

// The checks of a matrix by its lengths: 1, then 2.
pub fn check_matrix<S: Size>(
    offsets: usize,
    columns: usize,
    values: usize,
    diagonal: usize,
) -> Answer
    ensures { number_of result ≡ first_of (matrix_lengths S.DIM offsets columns values diagonal) }
{
    if is_too_large(offsets, columns) {
        return Err(Refusal::Size);
    }
    let size = S::DIM * S::DIM;
    if values != size * columns {
        return Err(Refusal::Shape);
    }
    if diagonal != size * (offsets - 1) {
        return Err(Refusal::Shape);
    }
    Ok(())
}

// The same of a matrix and two slices that have N words to a row.
pub fn check_vectors<S: Size>(
    offsets: usize,
    columns: usize,
    values: usize,
    diagonal: usize,
    first: usize,
    second: usize,
) -> Answer
    ensures { number_of result ≡ first_of (vector_lengths S.DIM offsets columns values diagonal first second) }
{
    check_matrix::<S>(offsets, columns, values, diagonal)?;
    let all = S::DIM * (offsets - 1);
    if first != all {
        return Err(Refusal::Shape);
    }
    if second != all {
        return Err(Refusal::Shape);
    }
    Ok(())
}
