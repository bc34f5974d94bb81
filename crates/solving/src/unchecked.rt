// The solve without checks, at each size: one loop forward and one backward, and the work on a row.
// These functions ask that the factor is valid and that the lengths fit it, so that no user calls them.
ghost use Rattle.std.specs.Prelude.{◌≡◌, ◌+◌, ◌*◌, ◌≤◌, length};
ghost use Rattle.std.specs.Float.{binary64};
ghost use Rattle.blocks.specs.Lent.{vector_at};
ghost use Rattle.lent.specs.Steps.{Within};
ghost use Rattle.patterns.specs.Pattern.{rows_of};
ghost use Rattle.matrix.specs.Fits.{RowFits};
ghost use Rattle.factors.specs.Solve.{solve};
ghost use Rattle.factor_check.specs.Fits.{FactorFits};
ghost use Rattle.solving.specs.Steps.{less_product, less_part, forward_part, backward_part, forward_rows, backward_rows};
ghost use Rattle.solving.specs.Fits.{PartFits, Known};

use blocks::unchecked::{block_at, put_row, vector_at};
use blocks::{Size, Values};

fn wide(x: u32) -> usize
    ensures { result ≡ x }
{
    x as usize
}

// A row's value t, less block e of the values times row j of x.
fn less_product<S: Size>(t: S::Row, values: &[f64], e: usize, x: &[f64], j: usize) -> S::Row
    requires { (Within (S.DIM * S.DIM) e (length values.now)) × (Within S.DIM j (length x.now)) }
    ensures { S.Row.list result ≡ less_product binary64 S.DIM values.now e x.now j (S.Row.list t) }
{
    t.subtract(S::apply(block_at::<S>(values, e), vector_at::<S>(x, j)))
}

// Row j of x. Row `at` is at hand as `known`: it was written just before, and to read it again would wait for that.
fn row_beside<S: Size>(x: &[f64], j: usize, at: usize, known: S::Row) -> S::Row
    requires { (Within S.DIM j (length x.now)) × (Known S.DIM at (S.Row.list known) x.now) }
    ensures { S.Row.list result ≡ vector_at S.DIM x.now j }
{
    if j == at {
        return known;
    }
    vector_at::<S>(x, j)
}

// A product as above, with such a row.
fn less_beside<S: Size>(
    t: S::Row,
    values: &[f64],
    e: usize,
    x: &[f64],
    j: usize,
    at: usize,
    known: S::Row,
) -> S::Row
    requires { (Within (S.DIM * S.DIM) e (length values.now)) × (Within S.DIM j (length x.now)) × (Known S.DIM at (S.Row.list known) x.now) }
    ensures { S.Row.list result ≡ less_product binary64 S.DIM values.now e x.now j (S.Row.list t) }
{
    t.subtract(S::apply(block_at::<S>(values, e), row_beside::<S>(x, j, at, known)))
}

// A row's value t, less the entries of a part of its row in stored order.
fn less_part<S: Size>(t: S::Row, part: &[u32], first: usize, values: &[f64], x: &[f64]) -> S::Row
    requires { RowFits S.DIM part.now first (length values.now) (length x.now) }
    ensures { S.Row.list result ≡ less_part binary64 S.DIM part.now first values.now x.now (S.Row.list t) }
{
    let mut left = t;
    for (k, column) in part.iter().enumerate() {
        left = less_product::<S>(left, values, first + k, x, *column as usize);
    }
    left
}

// The same where the last entry may be of the row at hand, as the lower entries of a row end with the row before it.
fn less_lower<S: Size>(
    t: S::Row,
    part: &[u32],
    first: usize,
    values: &[f64],
    x: &[f64],
    at: usize,
    known: S::Row,
) -> S::Row
    requires { (RowFits S.DIM part.now first (length values.now) (length x.now)) × (Known S.DIM at (S.Row.list known) x.now) }
    ensures { S.Row.list result ≡ less_part binary64 S.DIM part.now first values.now x.now (S.Row.list t) }
{
    if part.len() == 0 {
        return t;
    }
    let last = part.len() - 1;
    let left = less_part::<S>(t, &part[..last], first, values, x);
    less_beside::<S>(left, values, first + last, x, wide(part[last]), at, known)
}

// The same where the first entry may be of the row at hand, as the upper entries of a row begin with the row after it.
fn less_upper<S: Size>(
    t: S::Row,
    part: &[u32],
    first: usize,
    values: &[f64],
    x: &[f64],
    at: usize,
    known: S::Row,
) -> S::Row
    requires { (RowFits S.DIM part.now first (length values.now) (length x.now)) × (Known S.DIM at (S.Row.list known) x.now) }
    ensures { S.Row.list result ≡ less_part binary64 S.DIM part.now first values.now x.now (S.Row.list t) }
{
    if part.len() == 0 {
        return t;
    }
    let left = less_beside::<S>(t, values, first, x, wide(part[0]), at, known);
    less_part::<S>(left, &part[1..], first + 1, values, x)
}

// Row i: less its lower entries, then multiplied by the pivot's block. What is written is answered too.
fn forward_row<S: Size>(
    vec: &mut [f64],
    i: usize,
    at: usize,
    known: S::Row,
    part: &[u32],
    first: usize,
    diagonal: &[f64],
    values: &[f64],
) -> S::Row
    requires { (PartFits S.DIM i part.now first (length diagonal.now) (length values.now) (length vec.old)) × (Known S.DIM at (S.Row.list known) vec.old) }
    ensures { (vec.new ≡ forward_part binary64 S.DIM part.now first diagonal.now values.now i vec.old) × (S.Row.list result ≡ vector_at S.DIM vec.new i) }
{
    let less = less_lower::<S>(vector_at::<S>(vec, i), part, first, values, vec, at, known);
    let all = S::apply(block_at::<S>(diagonal, i), less);
    put_row::<S>(vec, i, all);
    all
}

// Row i: less its upper entries.
fn backward_row<S: Size>(
    vec: &mut [f64],
    i: usize,
    at: usize,
    known: S::Row,
    part: &[u32],
    first: usize,
    values: &[f64],
) -> S::Row
    requires { (RowFits S.DIM part.now first (length values.now) (length vec.old)) × (Within S.DIM i (length vec.old)) × (Known S.DIM at (S.Row.list known) vec.old) }
    ensures { (vec.new ≡ backward_part binary64 S.DIM part.now first values.now i vec.old) × (S.Row.list result ≡ vector_at S.DIM vec.new i) }
{
    let less = less_upper::<S>(vector_at::<S>(vec, i), part, first, values, vec, at, known);
    put_row::<S>(vec, i, less);
    less
}

// All rows rising: the lower entries of a row name rows that are done. At first no row is at hand, for which the number of rows stands.
fn forward<S: Size>(
    vec: &mut [f64],
    offsets: &[u32],
    columns: &[u32],
    splits: &[u32],
    diagonal: &[f64],
    values: &[f64],
)
    requires { (FactorFits S.DIM offsets.now columns.now splits.now (length diagonal.now) (length values.now)) × (length vec.old ≡ S.DIM * rows_of offsets.now) }
    ensures { vec.new ≡ forward_rows binary64 S.DIM (record { offsets = offsets.now; columns = columns.now; splits = splits.now }) (record { diagonal = diagonal.now; values = values.now }) vec.old }
{
    let n = offsets.len() - 1;
    let mut at = n;
    let mut known = S::Row::zero();
    for i in 0..n {
        let from = offsets[i] as usize;
        let to = splits[i] as usize;
        known = forward_row::<S>(
            vec,
            i,
            at,
            known,
            &columns[from..to],
            from,
            diagonal,
            values,
        );
        at = i;
    }
}

// All rows falling: the upper entries of a row name rows that are done.
fn backward<S: Size>(
    vec: &mut [f64],
    offsets: &[u32],
    columns: &[u32],
    splits: &[u32],
    diagonal: &[f64],
    values: &[f64],
)
    requires { (FactorFits S.DIM offsets.now columns.now splits.now (length diagonal.now) (length values.now)) × (length vec.old ≡ S.DIM * rows_of offsets.now) }
    ensures { vec.new ≡ backward_rows binary64 S.DIM (record { offsets = offsets.now; columns = columns.now; splits = splits.now }) (record { diagonal = diagonal.now; values = values.now }) vec.old }
{
    let mut left = offsets.len() - 1;
    let mut known = S::Row::zero();
    while left > 0 {
        let i = left - 1;
        let from = splits[i] as usize;
        let to = offsets[i + 1] as usize;
        known = backward_row::<S>(vec, i, left, known, &columns[from..to], from, values);
        left = i;
    }
}

// Forward, then backward.
pub fn solve_preconditioning_vec<S: Size>(
    vec: &mut [f64],
    offsets: &[u32],
    columns: &[u32],
    splits: &[u32],
    diagonal: &[f64],
    values: &[f64],
)
    requires { (FactorFits S.DIM offsets.now columns.now splits.now (length diagonal.now) (length values.now)) × (length vec.old ≡ S.DIM * rows_of offsets.now) }
    ensures { vec.new ≡ solve binary64 S.DIM (record { offsets = offsets.now; columns = columns.now; splits = splits.now }) (record { diagonal = diagonal.now; values = values.now }) vec.old }
{
    forward::<S>(vec, offsets, columns, splits, diagonal, values);
    backward::<S>(vec, offsets, columns, splits, diagonal, values);
}
