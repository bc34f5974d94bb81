// The assembly without checks of lengths and pattern, at each size: all places are found first, and only then blocks are added.
// These functions ask that the pattern is valid and that the lengths fit it, so that no user calls them.
ghost use Rattle.std.specs.Prelude.{◌≡◌, ◌+◌, ◌*◌, ◌≤◌, ◌<◌, length};
ghost use Rattle.std.specs.Float.{binary64};
ghost use Rattle.answers.specs.Checks.{first_of};
ghost use Rattle.answers.specs.Numbers.{number_of};
ghost use Rattle.answers.specs.Promise.{Ends};
ghost use Rattle.lent.specs.Steps.{Within};
ghost use Rattle.patterns.specs.Pattern.{rows_of, all_below};
ghost use Rattle.elements.specs.Pairs.{to_diagonal, is_stored, is_row_stored, are_stored};
ghost use Rattle.elements.specs.Assembly.{Lists, add_block, add_pair, add_row, add_all, assembled};
ghost use Rattle.elements.specs.Checks.{wrong_element, entry_lengths, element_lengths, pair_checks};
ghost use Rattle.elements.specs.Fits.{PatternFits, entry_or_none, kept_at, Placed, Finding, FindFits, AddFits, AssemblyFits};

use answers::{Answer, Index, Nodes, Refusal};
use blocks::unchecked::{block_at, put_block};
use blocks::{Size, Values, block_size};
use patterns::is_too_large;
use rows::unchecked::place_in;

// Which pairs of an element go to the diagonal: those of the same node place, those of equal numbers, or none.
#[derive(Clone, Copy)]
pub enum Rule {
    Place,
    Number,
    Never,
}

fn goes_to_diagonal(rule: Rule, rows: &[u32], cols: &[u32], a: usize, b: usize) -> bool
    requires { (a < length rows.now) × (b < length cols.now) }
    ensures { result ≡ to_diagonal rule rows.now cols.now a b }
{
    match rule {
        Rule::Place => a == b,
        Rule::Number => rows[a] == cols[b],
        Rule::Never => false,
    }
}

// Whether every node is below n.
#[tactic(auto, using(base::proofs::All::all_none, base::proofs::All::all_more, base::proofs::All::all_stop), unfolding(patterns::specs::Pattern::all_below))]
fn are_below(nodes: &[u32], n: u32) -> bool
    ensures { result ≡ all_below n nodes.now }
{
    for node in nodes {
        if *node >= n {
            return false;
        }
    }
    true
}

// The entry of row i with a column, or "no place".
fn entry_in(offsets: &[u32], columns: &[u32], i: usize, column: u32) -> u32
    requires { (PatternFits offsets.now columns.now) × (i < rows_of offsets.now) }
    ensures { result ≡ entry_or_none offsets.now columns.now i column }
{
    let from = offsets[i] as usize;
    let to = offsets[i + 1] as usize;
    let place = place_in(&columns[from..to], column);
    if !Index(place).is_place() {
        return place;
    }
    offsets[i] + place
}

// Keeps the entry of one pair, unless it goes to the diagonal. Whether it is stored.
fn find_pair(
    places: &mut [u32; 64],
    a: usize,
    b: usize,
    rule: Rule,
    rows: &[u32],
    cols: &[u32],
    offsets: &[u32],
    columns: &[u32],
) -> bool
    requires { (FindFits rows.now cols.now offsets.now columns.now) × (a < length rows.now) × (b < length cols.now) × (Placed rule rows.now cols.now offsets.now columns.now (8 * a + b) places.old) }
    ensures { Finding rule rows.now cols.now offsets.now columns.now (is_stored rule rows.now cols.now offsets.now columns.now a b) (8 * a + b + 1) result places.new }
{
    if goes_to_diagonal(rule, rows, cols, a, b) {
        return true;
    }
    let entry = entry_in(offsets, columns, rows[a] as usize, cols[b]);
    if !Index(entry).is_place() {
        return false;
    }
    places[8 * a + b] = entry;
    true
}

// The pairs of a row node.
fn find_row(
    places: &mut [u32; 64],
    a: usize,
    rule: Rule,
    rows: &[u32],
    cols: &[u32],
    offsets: &[u32],
    columns: &[u32],
) -> bool
    requires { (FindFits rows.now cols.now offsets.now columns.now) × (a < length rows.now) × (Placed rule rows.now cols.now offsets.now columns.now (8 * a) places.old) }
    ensures { Finding rule rows.now cols.now offsets.now columns.now (is_row_stored rule rows.now cols.now offsets.now columns.now a) (8 * (a + 1)) result places.new }
{
    for b in 0..cols.len() {
        if !find_pair(places, a, b, rule, rows, cols, offsets, columns) {
            return false;
        }
    }
    true
}

// All pairs.
fn find_places(
    places: &mut [u32; 64],
    rule: Rule,
    rows: &[u32],
    cols: &[u32],
    offsets: &[u32],
    columns: &[u32],
) -> bool
    requires { (FindFits rows.now cols.now offsets.now columns.now) × (length places.old ≡ 64) }
    ensures { Finding rule rows.now cols.now offsets.now columns.now (are_stored rule rows.now cols.now offsets.now columns.now) (8 * length rows.now) result places.new }
{
    for a in 0..rows.len() {
        if !find_row(places, a, rule, rows, cols, offsets, columns) {
            return false;
        }
    }
    true
}

// Block e of the target: block k of the element is added to it.
#[tactic(auto, unfolding(crate::specs::Assembly::add_block))]
fn add_at<S: Size>(target: &mut [f64], e: usize, element: &[f64], k: usize)
    requires { (Within (S.DIM * S.DIM) e (length target.old)) × (Within (S.DIM * S.DIM) k (length element.now)) }
    ensures { target.new ≡ add_block binary64 S.DIM element.now k e target.old }
{
    let sum = block_at::<S>(target, e).add(block_at::<S>(element, k));
    put_block::<S>(target, e, sum);
}

// The block of one pair goes to the diagonal or to the entry that was kept for it.
fn add_pair<S: Size>(
    diagonal: &mut [f64],
    values: &mut [f64],
    a: usize,
    b: usize,
    rule: Rule,
    rows: &[u32],
    cols: &[u32],
    element: &[f64],
    places: &[u32; 64],
)
    requires { (AddFits S.DIM rule rows.now cols.now (kept_at places.now) (length element.now) (length diagonal.old) (length values.old)) × (a < length rows.now) × (b < length cols.now) }
    ensures { ◌≡◌ {A = Lists} (diagonal.new, values.new) (add_pair binary64 S.DIM rule rows.now cols.now element.now (kept_at places.now) a b (diagonal.old, values.old)) }
{
    let k = rows.len() * a + b;
    if goes_to_diagonal(rule, rows, cols, a, b) {
        add_at::<S>(diagonal, rows[a] as usize, element, k);
    } else {
        add_at::<S>(values, places[8 * a + b] as usize, element, k);
    }
}

// The pairs of a row node.
fn add_row<S: Size>(
    diagonal: &mut [f64],
    values: &mut [f64],
    a: usize,
    rule: Rule,
    rows: &[u32],
    cols: &[u32],
    element: &[f64],
    places: &[u32; 64],
)
    requires { (AddFits S.DIM rule rows.now cols.now (kept_at places.now) (length element.now) (length diagonal.old) (length values.old)) × (a < length rows.now) }
    ensures { ◌≡◌ {A = Lists} (diagonal.new, values.new) (add_row binary64 S.DIM rule rows.now cols.now element.now (kept_at places.now) a (diagonal.old, values.old)) }
{
    for b in 0..cols.len() {
        add_pair::<S>(diagonal, values, a, b, rule, rows, cols, element, places);
    }
}

// All pairs.
fn add_all<S: Size>(
    diagonal: &mut [f64],
    values: &mut [f64],
    rule: Rule,
    rows: &[u32],
    cols: &[u32],
    element: &[f64],
    places: &[u32; 64],
)
    requires { AddFits S.DIM rule rows.now cols.now (kept_at places.now) (length element.now) (length diagonal.old) (length values.old) }
    ensures { ◌≡◌ {A = Lists} (diagonal.new, values.new) (add_all binary64 S.DIM rule rows.now cols.now element.now (kept_at places.now) (diagonal.old, values.old)) }
{
    for a in 0..rows.len() {
        add_row::<S>(diagonal, values, a, rule, rows, cols, element, places);
    }
}

// An assembly into a matrix whose pattern and lengths were checked: 6, then 7, then every addition.
pub fn assemble<S: Size>(
    diagonal: &mut [f64],
    values: &mut [f64],
    rule: Rule,
    rows: &[u32],
    cols: &[u32],
    element: &[f64],
    offsets: &[u32],
    columns: &[u32],
) -> Answer
    requires { AssemblyFits S.DIM rule rows.now cols.now (length element.now) offsets.now columns.now (length diagonal.old) (length values.old) }
    ensures { Ends {A = Lists} (pair_checks rule rows.now cols.now offsets.now columns.now) result (assembled binary64 S.DIM rule rows.now cols.now element.now offsets.now columns.now (diagonal.old, values.old)) (diagonal.old, values.old) (diagonal.new, values.new) }
{
    let n = (offsets.len() - 1) as u32;
    if !are_below(rows, n) {
        return Err(Refusal::Node);
    }
    if !are_below(cols, n) {
        return Err(Refusal::Node);
    }
    let mut places = [0u32; 64];
    if !find_places(&mut places, rule, rows, cols, offsets, columns) {
        return Err(Refusal::NoEntry);
    }
    add_all::<S>(diagonal, values, rule, rows, cols, element, &places);
    Ok(())
}

// Whether the lengths of an element are wrong: those of its two lists of nodes, and of its values.
fn is_wrong_element<S: Size>(rows: usize, cols: usize, element: usize) -> bool
    ensures { result ≡ wrong_element S.DIM rows cols element }
{
    if Nodes(rows).out_of_range() {
        return true;
    }
    if cols != rows {
        return true;
    }
    element != rows * rows * block_size::<S>()
}

// The checks of an element and a matrix by their lengths, without a diagonal: 1, then 2.
pub fn check_entry_lengths<S: Size>(
    rows: usize,
    cols: usize,
    element: usize,
    offsets: usize,
    columns: usize,
    values: usize,
) -> Answer
    ensures { number_of result ≡ first_of (entry_lengths S.DIM rows cols element offsets columns values) }
{
    if is_too_large(offsets, columns) {
        return Err(Refusal::Size);
    }
    if is_wrong_element::<S>(rows, cols, element) {
        return Err(Refusal::Shape);
    }
    if values != block_size::<S>() * columns {
        return Err(Refusal::Shape);
    }
    Ok(())
}

// The same with a diagonal.
pub fn check_element_lengths<S: Size>(
    rows: usize,
    cols: usize,
    element: usize,
    offsets: usize,
    columns: usize,
    diagonal: usize,
    values: usize,
) -> Answer
    ensures { number_of result ≡ first_of (element_lengths S.DIM rows cols element offsets columns diagonal values) }
{
    check_entry_lengths::<S>(rows, cols, element, offsets, columns, values)?;
    if diagonal != block_size::<S>() * (offsets - 1) {
        return Err(Refusal::Shape);
    }
    Ok(())
}
