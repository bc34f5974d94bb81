// Row i of a factor less the products of its lower entries and the entries that they lead to, at each size: a function for each of the nested loops.
// These functions ask that the factor is valid and that the lengths fit it, so that no user calls them.
ghost use Rattle.std.specs.Prelude.{◌≡◌, List, ℕ, ◌+◌, ◌*◌, ◌≤◌, ◌<◌, length, get_or};
ghost use Rattle.std.specs.Float.{binary64};
ghost use Rattle.base.specs.Iterate.{iterate};
ghost use Rattle.blocks.specs.Block.{product};
ghost use Rattle.lent.specs.Steps.{Within};
ghost use Rattle.patterns.specs.Pattern.{rows_of};
ghost use Rattle.factors.specs.Factor.{less_block, take_product, take_pivot, reduce_row};
ghost use Rattle.reducing.specs.Lent.{pattern_of, factor_of};
ghost use Rattle.factor_check.specs.Fits.{FactorFits};
ghost use Rattle.reducing.specs.Fits.{HandedOn, TakeFits};

use answers::Index;
use blocks::unchecked::{block_at, put_block};
use blocks::{Size, Values};
use places::unchecked::{mark_row, place_of};

// Block w of out, less the product of two blocks.
#[tactic(auto, unfolding(factors::specs::Factor::less_block))]
fn less_product<S: Size>(out: &mut [f64], w: usize, x: S::Block, y: S::Block)
    requires { Within (S.DIM * S.DIM) w (length out.old) }
    ensures { out.new ≡ less_block binary64 S.DIM w (product binary64 S.DIM (S.Block.list x) (S.Block.list y)) out.old }
{
    let less = block_at::<S>(out, w).subtract(S::product(x, y));
    put_block::<S>(out, w, less);
}

// Entry e is (i, p) and entry g is (p, j): their product is taken from (i, j), which is in the diagonal, in row i, or absent.
// The row is handed on as its columns, with their marks, and the place of its first entry. Of an absent block no product is made.
fn take_product<S: Size>(
    diagonal: &mut [f64],
    values: &mut [f64],
    marks: &[u8; 4096],
    row: &[u32],
    from: usize,
    columns: &[u32],
    i: usize,
    e: usize,
    g: usize,
)
    requires { (TakeFits S.DIM marks.now row.now from columns.now i (length diagonal.old) (length values.old)) × (e < length columns.now) × (g < length columns.now) }
    ensures { (offsets splits : List ℕ) → HandedOn offsets columns.now i row.now from → factor_of diagonal.new values.new ≡ take_product binary64 S.DIM (pattern_of offsets columns.now splits) i e g (factor_of diagonal.old values.old) }
{
    let j = columns[g];
    if j as usize == i {
        let lower = block_at::<S>(values, e);
        let upper = block_at::<S>(values, g);
        less_product::<S>(diagonal, i, lower, upper);
        return;
    }
    let place = place_of(marks, row, j);
    if place != Index::NO_PLACE {
        let lower = block_at::<S>(values, e);
        let upper = block_at::<S>(values, g);
        less_product::<S>(values, from + place as usize, lower, upper);
    }
}

// The upper entries of row p in order, from the first to before the end, where entry e is (i, p).
fn take_pivot<S: Size>(
    diagonal: &mut [f64],
    values: &mut [f64],
    marks: &[u8; 4096],
    row: &[u32],
    from: usize,
    columns: &[u32],
    i: usize,
    e: usize,
    first: usize,
    end: usize,
)
    requires { (TakeFits S.DIM marks.now row.now from columns.now i (length diagonal.old) (length values.old)) × (e < length columns.now) × (first ≤ end) × (end ≤ length columns.now) }
    ensures { (offsets splits : List ℕ) → HandedOn offsets columns.now i row.now from → factor_of diagonal.new values.new ≡ iterate (take_product binary64 S.DIM (pattern_of offsets columns.now splits) i e) first end (factor_of diagonal.old values.old) }
{
    for g in first..end {
        take_product::<S>(diagonal, values, marks, row, from, columns, i, e, g);
    }
}

// The first upper entry of the row that entry e leads to, and the end of that row.
fn upper_first(columns: &[u32], splits: &[u32], e: usize) -> usize
    requires { (e < length columns.now) × (get_or columns.now e 0 < length splits.now) }
    ensures { result ≡ get_or splits.now (get_or columns.now e 0) 0 }
{
    let p = columns[e] as usize;
    splits[p] as usize
}

fn upper_end(columns: &[u32], offsets: &[u32], e: usize) -> usize
    requires { (e < length columns.now) × (get_or columns.now e 0 + 1 < length offsets.now) }
    ensures { result ≡ get_or offsets.now (get_or columns.now e 0 + 1) 0 }
{
    let p = columns[e] as usize;
    offsets[p + 1] as usize
}

// The lower entries of row i in order, from the first to before the end, where the row is marked.
// A function of its own for each N: built into an entry point its loops take more time at N = 1 (docs/LOOK-BACK.md).
#[inline(never)]
fn take_lower<S: Size>(
    diagonal: &mut [f64],
    values: &mut [f64],
    marks: &[u8; 4096],
    row: &[u32],
    from: usize,
    offsets: &[u32],
    columns: &[u32],
    splits: &[u32],
    i: usize,
    end: usize,
)
    requires { (FactorFits S.DIM offsets.now columns.now splits.now (length diagonal.old) (length values.old)) × (TakeFits S.DIM marks.now row.now from columns.now i (length diagonal.old) (length values.old)) × (HandedOn offsets.now columns.now i row.now from) × (from ≤ end) × (end ≤ length columns.now) }
    ensures { factor_of diagonal.new values.new ≡ iterate (take_pivot binary64 S.DIM (pattern_of offsets.now columns.now splits.now) i) from end (factor_of diagonal.old values.old) }
{
    for e in from..end {
        let first = upper_first(columns, splits, e);
        let last = upper_end(columns, offsets, e);
        take_pivot::<S>(
            diagonal, values, marks, row, from, columns, i, e, first, last,
        );
    }
}

// Row i is marked, and then its lower entries are taken.
pub fn reduce_row<S: Size>(
    diagonal: &mut [f64],
    values: &mut [f64],
    marks: &mut [u8; 4096],
    offsets: &[u32],
    columns: &[u32],
    splits: &[u32],
    i: usize,
)
    requires { (length marks.old ≡ 4096) × (FactorFits S.DIM offsets.now columns.now splits.now (length diagonal.old) (length values.old)) × (i < rows_of offsets.now) }
    ensures { (length marks.new ≡ 4096) × (factor_of diagonal.new values.new ≡ reduce_row binary64 S.DIM (pattern_of offsets.now columns.now splits.now) i (factor_of diagonal.old values.old)) }
{
    let from = offsets[i] as usize;
    let to = offsets[i + 1] as usize;
    mark_row(marks, &columns[from..to]);
    let split = splits[i] as usize;
    take_lower::<S>(
        diagonal,
        values,
        marks,
        &columns[from..to],
        from,
        offsets,
        columns,
        splits,
        i,
        split,
    );
}
