// The copy without checks, at each size, row by row.
// These functions ask that both patterns are valid, that each entry of A has a place and that the lengths fit, so that no user calls them.
ghost use Rattle.std.specs.Prelude.{◌≡◌, true, ◌+◌, ◌*◌, ◌≤◌, ◌<◌, length, get_or};
ghost use Rattle.std.specs.Float.{binary64};
ghost use Rattle.base.specs.Iterate.{iterate};
ghost use Rattle.blocks.specs.Lent.{put_at};
ghost use Rattle.lent.specs.Steps.{Within};
ghost use Rattle.rows.specs.Lookup.{no_place};
ghost use Rattle.factors.specs.Copy.{row_has_places, block_or_zero, copied_row, copied_rows};
ghost use Rattle.places.specs.Places.{Markable, Marked};
ghost use Rattle.copy_rows.specs.Steps.{CopyRow, CopyFits};
ghost use Rattle.copy_rows.specs.Scatter.{Guided, Zeros, put_marked};

use answers::Index;
use blocks::unchecked::{block_at, put, put_block};
use blocks::{Size, Values, block_size};
use copy_check::unchecked::is_same_pattern;
use places::unchecked::{mark_row, place_of};

fn wide(x: u32) -> usize
    ensures { result ≡ x }
{
    x as usize
}

fn wide_mark(x: u8) -> usize
    ensures { result ≡ x }
{
    x as usize
}

// Block p of out: the one at a place of A's row, whose first entry is `first`, or +0. Each way writes its own block: one that either way gives is kept in memory and takes more time.
fn put_or_zero<S: Size>(out: &mut [f64], p: usize, values: &[f64], first: usize, place: u32)
    requires { (Within (S.DIM * S.DIM) p (length out.old)) × ((place ≡ no_place → ⊥) → Within (S.DIM * S.DIM) (first + place) (length values.now)) }
    ensures { out.new ≡ put_at (S.DIM * S.DIM * p) (block_or_zero binary64 S.DIM values.now first place) out.old }
{
    if place == Index::NO_PLACE {
        put_block::<S>(out, p, S::Block::zero());
    } else {
        put_block::<S>(out, p, block_at::<S>(values, first + wide(place)));
    }
}

// The blocks of a row where A's row is marked: each is looked up, and written once.
fn gather<S: Size>(
    out: &mut [f64],
    marks: &[u8; 4096],
    row: &[u32],
    from: &[u32],
    first: usize,
    values: &[f64],
)
    requires { (CopyRow S.DIM row.now from.now first (length values.now) (length out.old)) × (Marked from.now marks.now) }
    ensures { out.new ≡ copied_row binary64 S.DIM from.now first values.now row.now }
{
    for (p, column) in row.iter().enumerate() {
        let place = place_of(marks, from, *column);
        put_or_zero::<S>(out, p, values, first, place);
    }
}

// The mark of a column, as a place.
fn place_at(marks: &[u8; 4096], column: u32) -> usize
    requires { (length marks.now ≡ 4096) × (column < 4096) }
    ensures { result ≡ get_or marks.now column 0 }
{
    wide_mark(marks[wide(column)])
}

// The values of four columns of A's row, each put where its mark says. All is read before the first value is written: the reads are then made at once.
fn put_four(
    out: &mut [f64],
    marks: &[u8; 4096],
    from: &[u32],
    k: usize,
    first: usize,
    values: &[f64],
)
    requires { (Guided from.now marks.now (length out.old)) × (k + 4 ≤ length from.now) × (first + length from.now ≤ length values.now) }
    ensures { out.new ≡ iterate (put_marked from.now first values.now marks.now) k (k + 4) out.old }
{
    let p0 = place_at(marks, from[k]);
    let p1 = place_at(marks, from[k + 1]);
    let p2 = place_at(marks, from[k + 2]);
    let p3 = place_at(marks, from[k + 3]);
    let v0 = values[first + k];
    let v1 = values[first + (k + 1)];
    let v2 = values[first + (k + 2)];
    let v3 = values[first + (k + 3)];
    out[p0] = v0;
    out[p1] = v1;
    out[p2] = v2;
    out[p3] = v3;
}

// Those from a place on, one at a time.
fn put_rest(
    out: &mut [f64],
    marks: &[u8; 4096],
    from: &[u32],
    start: usize,
    first: usize,
    values: &[f64],
)
    requires { (Guided from.now marks.now (length out.old)) × (start ≤ length from.now) × (first + length from.now ≤ length values.now) }
    ensures { out.new ≡ iterate (put_marked from.now first values.now marks.now) start (length from.now) out.old }
{
    for k in start..from.len() {
        let place = place_at(marks, from[k]);
        out[place] = values[first + k];
    }
}

// All of them, four at a time.
fn put_all(out: &mut [f64], marks: &[u8; 4096], from: &[u32], first: usize, values: &[f64])
    requires { (Guided from.now marks.now (length out.old)) × (first + length from.now ≤ length values.now) }
    ensures { out.new ≡ iterate (put_marked from.now first values.now marks.now) 0 (length from.now) out.old }
{
    let mut k = 0;
    while k + 4 <= from.len() {
        put_four(out, marks, from, k, first, values);
        k += 4;
    }
    put_rest(out, marks, from, k, first, values);
}

// All values become +0, unless `count` others are to be put, as many as there are: then each is written all the same.
fn clear_unless(out: &mut [f64], count: usize)
    ensures { (length out.new ≡ length out.old) × ((length out.old ≡ count → ⊥) → Zeros binary64 out.new (length out.new)) }
{
    if out.len() == count {
        return;
    }
    for x in out.iter_mut() {
        *x = 0.0;
    }
}

// A row of at most 256 columns at N = 1: the factor's row is marked, so that a mark is the whole place, and A's values go to their places.
fn scatter_row(
    out: &mut [f64],
    marks: &mut [u8; 4096],
    row: &[u32],
    from: &[u32],
    first: usize,
    values: &[f64],
)
    requires { (length marks.old ≡ 4096) × (CopyRow 1 row.now from.now first (length values.now) (length out.old)) × (Markable row.now) × (row_has_places row.now from.now ≡ true) × (length row.now ≤ 256) }
    ensures { (out.new ≡ copied_row binary64 1 from.now first values.now row.now) × (length marks.new ≡ 4096) }
{
    mark_row(marks, row);
    clear_unless(out, from.len());
    put_all(out, marks, from, first, values);
}

// A row: at N = 1 blocks of one value are put where they go, and larger ones are quicker looked up.
fn copy_row<S: Size>(
    out: &mut [f64],
    marks: &mut [u8; 4096],
    row: &[u32],
    from: &[u32],
    first: usize,
    values: &[f64],
)
    requires { (length marks.old ≡ 4096) × (CopyRow S.DIM row.now from.now first (length values.now) (length out.old)) × (Markable row.now) × (row_has_places row.now from.now ≡ true) }
    ensures { (out.new ≡ copied_row binary64 S.DIM from.now first values.now row.now) × (length marks.new ≡ 4096) }
{
    if S::DIM == 1 {
        if row.len() <= 256 {
            scatter_row(out, marks, row, from, first, values);
            return;
        }
    }
    mark_row(marks, from);
    gather::<S>(out, marks, row, from, first, values);
}

// The entries of all rows.
fn copy_rows<S: Size>(
    values: &mut [f64],
    starts: &[u32],
    entries: &[u32],
    a_values: &[f64],
    offsets: &[u32],
    columns: &[u32],
)
    requires { CopyFits S.DIM starts.now entries.now offsets.now columns.now (length a_values.now) (length values.old) }
    ensures { values.new ≡ copied_rows binary64 S.DIM starts.now entries.now a_values.now offsets.now columns.now }
{
    let mut marks = [0u8; 4096];
    let size = block_size::<S>();
    for i in 0..offsets.len() - 1 {
        let first = starts[i] as usize;
        let past = starts[i + 1] as usize;
        let from = offsets[i] as usize;
        let to = offsets[i + 1] as usize;
        let begin = size * from;
        let end = size * to;
        copy_row::<S>(
            &mut values[begin..end],
            &mut marks,
            &columns[from..to],
            &entries[first..past],
            first,
            a_values,
        );
    }
}

// The entries: those of A as they are, if the factor has its pattern.
fn copy_entries<S: Size>(
    values: &mut [f64],
    starts: &[u32],
    entries: &[u32],
    a_values: &[f64],
    offsets: &[u32],
    columns: &[u32],
)
    requires { CopyFits S.DIM starts.now entries.now offsets.now columns.now (length a_values.now) (length values.old) }
    ensures { values.new ≡ copied_rows binary64 S.DIM starts.now entries.now a_values.now offsets.now columns.now }
{
    if is_same_pattern(starts, entries, offsets, columns) {
        put(values, 0, a_values);
    } else {
        copy_rows::<S>(values, starts, entries, a_values, offsets, columns);
    }
}

// The diagonal and the entries.
pub fn copy_value<S: Size>(
    diagonal: &mut [f64],
    values: &mut [f64],
    starts: &[u32],
    entries: &[u32],
    a_diagonal: &[f64],
    a_values: &[f64],
    offsets: &[u32],
    columns: &[u32],
)
    requires { (CopyFits S.DIM starts.now entries.now offsets.now columns.now (length a_values.now) (length values.old)) × (length a_diagonal.now ≡ length diagonal.old) }
    ensures { (diagonal.new ≡ a_diagonal.now) × (values.new ≡ copied_rows binary64 S.DIM starts.now entries.now a_values.now offsets.now columns.now) }
{
    put(diagonal, 0, a_diagonal);
    copy_entries::<S>(values, starts, entries, a_values, offsets, columns);
}
