// The words of a row: 0 is no level, and l + 1 is the level l. Marks are the words that are not 0, and lie within a span of columns.
// These functions ask of their callers what the steps before have done, so that no user calls them.
ghost use Rattle.std.specs.Prelude.{◌≡◌, ℕ, ◌+◌, ◌-◌, ◌<◌, ◌≤◌, min, max, length, get_or, set, replicate};
ghost use Rattle.fill.specs.Fill.{stored, columns_from, levels_from};
ghost use Rattle.fill.specs.Steps.{levels_in, least, spread_one, spread_all, loaded, over, put, Spans, end_of, pivot_step, pivot_high, PivotFits, Loadable, RowReady, Started, Worked, PutFits};

use fill::clear;

// The columns from `low` on and below `high`.
#[derive(Clone, Copy)]
pub struct Span {
    pub low: usize,
    pub high: usize,
}

// The lesser of two words, where 0 is none.
#[tactic(auto, using(fill::proofs::LevelLaws::least_left, fill::proofs::LevelLaws::least_right))]
fn least_of(v: u32, w: u32) -> u32
    ensures { result ≡ least v w }
{
    if v == 0 {
        return w;
    }
    if v < w { v } else { w }
}

// The pivot's entry at a column, of level l, is taken to row i, where the level of (i, p) is a.
#[tactic(auto, unfolding(fill::specs::Steps::spread_one))]
fn spread_one(row: &mut [u32], i: u32, a: u32, k: u32, column: u32, l: u32)
    requires { (column < length row.old) × (a < 65536) × (l < 65536) }
    ensures { row.new ≡ spread_one k i a column l row.old }
{
    if k <= l {
        return;
    }
    if column == i {
        return;
    }
    let at = column as usize;
    let word = row[at];
    let greatest = a.max(l);
    row[at] = least_of(word, greatest + 2);
}

// All the pivot's upper entries are.
fn spread(row: &mut [u32], i: u32, a: u32, k: u32, columns: &[u32], levels: &[u16])
    requires { (a < 65536) × (length columns.now ≡ length levels.now) × ((e : ℕ) → e < length columns.now → get_or columns.now e 0 < length row.old) }
    ensures { row.new ≡ spread_all k i a columns.now levels.now row.old }
{
    for e in 0..columns.len() {
        let column = columns[e];
        let l = levels[e] as u32;
        spread_one(row, i, a, k, column, l);
    }
}

// The end of a span that takes in the last of rising columns.
#[tactic(auto, unfolding(fill::specs::Steps::end_of))]
fn end_of(columns: &[u32], high: usize) -> usize
    ensures { result ≡ end_of columns.now high }
{
    if columns.len() == 0 {
        return high;
    }
    let last = columns[columns.len() - 1] as usize;
    high.max(last + 1)
}

// The pivot p, whose upper part stands at s .. e, gives row i what it gives. Answers where the row's span ends then.
#[tactic(auto, using(fill::proofs::PivotLaws::parts_same, fill::proofs::PivotLaws::pivot_none, fill::proofs::PivotLaws::pivot_high_lem, fill::proofs::PivotLaws::pivot_spread), unfolding(fill::specs::Steps::pivot_high))]
fn take_pivot(
    row: &mut [u32],
    i: u32,
    k: u32,
    p: usize,
    s: usize,
    e: usize,
    columns: &[u32],
    levels: &[u16],
    high: usize,
) -> usize
    requires { PivotFits p row.old s e columns.now levels.now }
    ensures { (row.new ≡ pivot_step k i p s e columns.now levels.now row.old) × (result ≡ pivot_high k p s e columns.now row.old high) }
{
    let word = row[p];
    if word == 0 {
        return high;
    }
    let a = word - 1;
    if k <= a {
        return high;
    }
    spread(row, i, a, k, &columns[s..e], &levels[s..e]);
    end_of(&columns[s..e], high)
}

// The span of columns below n. Where there is none it is empty, at n.
#[tactic(auto, using(fill::proofs::SpanLaws::spans_more))]
fn span_of(columns: &[u32], n: usize) -> Span
    requires { (e : ℕ) → e < length columns.now → get_or columns.now e 0 < n }
    ensures { (Spans result.low result.high columns.now (length columns.now)) × (result.low ≤ result.high) × (result.high ≤ n) }
{
    let mut low = n;
    let mut high: usize = 0;
    for column in columns {
        let at = *column as usize;
        low = low.min(at);
        high = high.max(at + 1);
    }
    Span {
        low,
        high: low.max(high),
    }
}

// A's entries have level 0.
#[tactic(auto, using(base::proofs::Iterate::iterate_none, base::proofs::Iterate::iterate_more), unfolding(fill::specs::Steps::load_one, fill::specs::Steps::loaded))]
fn load_row(row: &mut [u32], columns: &[u32])
    requires { (e : ℕ) → e < length columns.now → get_or columns.now e 0 < length row.old }
    ensures { row.new ≡ loaded columns.now row.old }
{
    for column in columns {
        row[*column as usize] = 1;
    }
}

// The number of marks below a column, where none stands below `low`.
#[tactic(auto, using(fill::proofs::SpanLaws::columns_before, fill::proofs::ScanLaws::columns_skip, fill::proofs::ScanLaws::count_hit))]
pub fn count_marks(row: &[u32], low: usize, to: usize) -> usize
    requires { (to ≤ length row.now) × ((j : ℕ) → j < low → get_or row.now j 0 ≡ 0) }
    ensures { result ≡ length (columns_from (levels_in row.now) 0 to) }
{
    let mut found = 0;
    for j in low..to {
        if row[j] != 0 {
            found += 1;
        }
    }
    found
}

// The columns of the marks are written out rising, with their levels.
#[tactic(auto, using(fill::proofs::Lists::over_none, fill::proofs::SpanLaws::columns_before, fill::proofs::SpanLaws::levels_before, fill::proofs::SpanLaws::columns_after_lem, fill::proofs::SpanLaws::levels_after_lem, fill::proofs::ScanLaws::room_here))]
fn write_row(columns: &mut [u32], levels: &mut [u16], row: &[u32], low: usize, high: usize)
    requires low_le_high { (low ≤ high) × (high ≤ length row.now) × (length row.now ≤ 65536) × ((j : ℕ) → j < length row.now → get_or row.now j 0 ≤ j + 1) }
    requires by_index { ((j : ℕ) → j < low → get_or row.now j 0 ≡ 0) × ((j : ℕ) → high ≤ j → get_or row.now j 0 ≡ 0) }
    requires row_in_bounds { (length (columns_from (levels_in row.now) 0 (length row.now)) ≤ length columns.old) × (length (columns_from (levels_in row.now) 0 (length row.now)) ≤ length levels.old) }
    ensures columns_after { columns.new ≡ over (columns_from (levels_in row.now) 0 (length row.now)) columns.old }
    ensures levels_after { levels.new ≡ over (levels_from (levels_in row.now) 0 (length row.now)) levels.old }
{
    let mut at = 0;
    for j in low..high {
        let word = row[j];
        if word != 0 {
            columns[at] = j as u32;
            levels[at] = (word - 1) as u16;
            at += 1;
        }
    }
}

// Row i of A is loaded into a clear row.
#[tactic(auto, using(fill::proofs::PivotLaws::part_ends, fill::proofs::PivotLaws::part_below))]
fn start_row(row: &mut [u32], i: usize, offsets: &[u32], columns: &[u32]) -> Span
    requires { Loadable offsets.now columns.now i row.old }
    ensures { Started (stored offsets.now columns.now) (length row.old) i result.low result.high row.new }
{
    let a = offsets[i] as usize;
    let b = offsets[i + 1] as usize;
    load_row(row, &columns[a..b]);
    span_of(&columns[a..b], row.len())
}

// The levels of row i. Pivots outside its span give nothing: a row that has few columns far below its own is not gone through.
#[tactic(auto, using(fill::proofs::SpanLaws::skip_rest, fill::proofs::PivotLaws::levelled_as))]
pub fn row_levels(
    row: &mut [u32],
    i: u32,
    k: u32,
    starts: &[u32],
    entries: &[u32],
    offsets: &[u32],
    columns: &[u32],
    splits: &[u32],
    levels: &[u16],
) -> Span
    requires { RowReady starts.now entries.now k i row.old offsets.now columns.now splits.now levels.now }
    ensures { Worked (stored starts.now entries.now) k (length row.old) i result.low result.high row.new }
{
    let own = i as usize;
    let span = start_row(row, own, starts, entries);
    let low = span.low;
    let mut high = span.high;
    for p in low.min(own)..own {
        if high <= p {
            break;
        }
        let s = splits[p] as usize;
        let e = offsets[p + 1] as usize;
        high = take_pivot(row, i, k, p, s, e, columns, levels, high);
    }
    Span { low, high }
}

// Row i, which has `all` marks, is written out at `at` with its split and its end, and cleared.
#[tactic(auto, using(fill::proofs::PutLaws::put_columns, fill::proofs::PutLaws::put_levels, fill::proofs::PutLaws::put_is))]
pub fn put_row(
    columns: &mut [u32],
    levels: &mut [u16],
    splits: &mut [u32],
    offsets: &mut [u32],
    row: &mut [u32],
    i: usize,
    at: usize,
    all: usize,
    span: Span,
)
    requires { PutFits i at all span.low span.high offsets.old columns.old splits.old levels.old row.old }
    ensures columns_after { columns.new ≡ put at (columns_from (levels_in row.old) 0 (length row.old)) columns.old }
    ensures levels_after { levels.new ≡ put at (levels_from (levels_in row.old) 0 (length row.old)) levels.old }
    ensures splits_after { splits.new ≡ set splits.old i (at + length (columns_from (levels_in row.old) 0 i)) }
    ensures offsets_after { offsets.new ≡ set offsets.old (i + 1) (at + all) }
    ensures row_after { row.new ≡ replicate (length row.old) 0 }
{
    let low = span.low;
    let high = span.high;
    let lower = count_marks(row, low, i);
    splits[i] = (at + lower) as u32;
    offsets[i + 1] = (at + all) as u32;
    write_row(&mut columns[at..], &mut levels[at..], row, low, high);
    clear(&mut row[low..high]);
}
