// The rules of a valid pattern one after the other: for the crates above, which make check 1 of the lengths themselves.
// These functions ask that of their callers, so that no user calls them.
ghost use Rattle.std.specs.Prelude.{◌≡◌, true, false, cond, ◌+◌, ◌-◌, ◌≤◌, ◌<◌, eqb, length, drop};
ghost use Rattle.patterns.specs.Pattern.{rows_of, never_fall, valid_offsets, all_below, valid_entries, valid_pattern, rises, valid_splits};
ghost use Rattle.patterns.specs.Checks.{too_large};
ghost use Rattle.patterns.specs.Steps.{Ordered, Ready, climbs, eight_climb_at, rows_climb, row_right, rows_right, valid_as, rises_to, seven_rise, first_above, factor_row};
ghost use Rattle.patterns.specs.Marks.{Below, Marking};

// The loop has no way out in the middle: several offsets are then compared at once, which is some times as fast.
#[tactic(auto, using(crate::proofs::TestLaws::flag_on), unfolding(base::specs::All::all_to, crate::specs::Pattern::never_fall))]
pub fn never_fall(offsets: &[u32]) -> bool
    requires { 1 ≤ length offsets.now }
    ensures { result ≡ never_fall offsets.now }
{
    let rows = offsets.len() - 1;
    let mut right = true;
    for i in 0..rows {
        right = right & (offsets[i] <= offsets[i + 1]);
    }
    right
}

#[tactic(auto, using(crate::proofs::OffsetLaws::wrong_first, crate::proofs::OffsetLaws::wrong_order, crate::proofs::OffsetLaws::last_decides))]
fn has_valid_offsets(offsets: &[u32], columns: &[u32]) -> bool
    requires { 1 ≤ length offsets.now }
    ensures { result ≡ valid_offsets offsets.now columns.now }
{
    if offsets[0] != 0 {
        return false;
    }
    if !never_fall(offsets) {
        return false;
    }
    offsets[offsets.len() - 1] as usize == columns.len()
}

// Whether the eight columns from place k on climb. There is no branch between the tests, so that several are made at once.
fn do_eight_climb(row: &[u32], k: usize, least: u32, own: u32, n: u32) -> bool
    requires { k + 8 ≤ length row.now }
    ensures { result ≡ eight_climb_at n own least row.now k }
{
    let c0 = row[k];
    let c1 = row[k + 1];
    let c2 = row[k + 2];
    let c3 = row[k + 3];
    let c4 = row[k + 4];
    let c5 = row[k + 5];
    let c6 = row[k + 6];
    let c7 = row[k + 7];
    let rise = (c0 < c1)
        & (c1 < c2)
        & (c2 < c3)
        & (c3 < c4)
        & (c4 < c5)
        & (c5 < c6)
        & (c6 < c7)
        & (c7 < n);
    let differ = (c0 != own)
        & (c1 != own)
        & (c2 != own)
        & (c3 != own)
        & (c4 != own)
        & (c5 != own)
        & (c6 != own)
        & (c7 != own);
    (c0 >= least) & (rise & differ)
}

// What is left of a row, one column at a time.
#[tactic(auto, using(crate::proofs::ClimbLaws::one_on, crate::proofs::ClimbLaws::one_stops, crate::proofs::ClimbLaws::none_left))]
fn does_rest_climb(rest: &[u32], first: u32, own: u32, n: u32) -> bool
    ensures { result ≡ climbs n own first rest.now }
{
    let mut least = first;
    for column in rest {
        if *column < least {
            return false;
        }
        if *column == own {
            return false;
        }
        if *column >= n {
            return false;
        }
        least = *column + 1;
    }
    true
}

// A row of any length: eight columns at a time, then the rest.
#[tactic(auto, using(crate::proofs::ClimbLaws::eight_passes, crate::proofs::ClimbLaws::eight_stops, crate::proofs::ClimbLaws::eight_last))]
fn is_climbing_by_eights(row: &[u32], own: u32, n: u32) -> bool
    ensures { result ≡ climbs n own 0 row.now }
{
    let mut least = 0;
    let mut k = 0;
    // A step of eight: its tests are made at once.
    while k + 8 <= row.len() {
        if !do_eight_climb(row, k, least, own, n) {
            return false;
        }
        least = row[k + 7] + 1;
        k += 8;
    }
    does_rest_climb(&row[k..], least, own, n)
}

// Whether a row rises strictly, has no column `own`, and all are below n. Then it needs no marks, and this is the quickest way to find it valid.
// Most rows of a plate have eight columns, and one test without a loop takes a quarter less time.
#[tactic(auto, using(crate::proofs::ClimbLaws::eight_all))]
fn is_climbing(row: &[u32], own: u32, n: u32) -> bool
    ensures { result ≡ climbs n own 0 row.now }
{
    if row.len() == 8 {
        return do_eight_climb(row, 0, 0, own, n);
    }
    is_climbing_by_eights(row, own, n)
}

// The column that a row must not have: its own, or none that is below n.
fn refused_column(own: u32, n: u32, refused: bool) -> u32
    ensures { result ≡ cond refused own n }
{
    if refused { own } else { n }
}

#[tactic(auto, using(crate::proofs::RowLaws::row_in_order, crate::proofs::RowLaws::row_within), unfolding(crate::specs::Steps::rows_climb, base::specs::All::all_to))]
fn are_climbing_rows(offsets: &[u32], columns: &[u32], refused: bool) -> bool
    requires { Ordered offsets.now columns.now }
    ensures { result ≡ rows_climb refused offsets.now columns.now (rows_of offsets.now) }
{
    let rows = offsets.len() - 1;
    let n = rows as u32;
    for i in 0..rows {
        let from = offsets[i] as usize;
        let to = offsets[i + 1] as usize;
        let own = refused_column(i as u32, n, refused);
        if !is_climbing(&columns[from..to], own, n) {
            return false;
        }
    }
    true
}

// Every column is looked at, as every offset is in `never_fall`.
#[tactic(auto, using(crate::proofs::TestLaws::flag_on), unfolding(base::specs::All::all_to, crate::specs::Pattern::all_below))]
fn are_below(columns: &[u32], n: u32) -> bool
    ensures { result ≡ all_below n columns.now }
{
    let mut right = true;
    for column in columns {
        right = right & (*column < n);
    }
    right
}

// Marks column k of a row with the row's stamp, unless it has it already, and says which.
#[tactic(auto, using(crate::proofs::MarkLaws::marked_again, crate::proofs::MarkLaws::column_below))]
fn is_next_fresh(marks: &mut [u8; 4096], row: &[u32], k: usize, stamp: u8) -> bool
    requires { (k < length row.now) × (all_below 4096 row.now ≡ true) }
    ensures { Marking stamp row.now k (k + 1) result marks.old marks.new }
{
    let column = row[k] as usize;
    if marks[column] == stamp {
        return false;
    }
    marks[column] = stamp;
    true
}

// Four columns, written out: a loop over one at a time is twice as slow.
fn are_four_fresh(marks: &mut [u8; 4096], row: &[u32], k: usize, stamp: u8) -> bool
    requires { (k + 4 ≤ length row.now) × (all_below 4096 row.now ≡ true) }
    ensures { Marking stamp row.now k (k + 4) result marks.old marks.new }
{
    if !is_next_fresh(marks, row, k, stamp) {
        return false;
    }
    if !is_next_fresh(marks, row, k + 1, stamp) {
        return false;
    }
    if !is_next_fresh(marks, row, k + 2, stamp) {
        return false;
    }
    is_next_fresh(marks, row, k + 3, stamp)
}

// The columns from a place on, one at a time.
fn are_rest_fresh(marks: &mut [u8; 4096], row: &[u32], from: usize, stamp: u8) -> bool
    requires { (from ≤ length row.now) × (all_below 4096 row.now ≡ true) }
    ensures { Marking stamp row.now from (length row.now) result marks.old marks.new }
{
    for k in from..row.len() {
        if !is_next_fresh(marks, row, k, stamp) {
            return false;
        }
    }
    true
}

// The columns of a row of any length: four at a time, then the rest.
fn are_all_fresh(marks: &mut [u8; 4096], row: &[u32], stamp: u8) -> bool
    requires { all_below 4096 row.now ≡ true }
    ensures { Marking stamp row.now 0 (length row.now) result marks.old marks.new }
{
    let mut k = 0;
    // A step of four, written out for speed.
    while k + 4 <= row.len() {
        if !are_four_fresh(marks, row, k, stamp) {
            return false;
        }
        k += 4;
    }
    are_rest_fresh(marks, row, k, stamp)
}

// Whether each column of a row is new when it is marked. A row of eight has no loop, as in `is_climbing`.
fn is_row_fresh(marks: &mut [u8; 4096], row: &[u32], stamp: u8) -> bool
    requires { all_below 4096 row.now ≡ true }
    ensures { Marking stamp row.now 0 (length row.now) result marks.old marks.new }
{
    if row.len() != 8 {
        return are_all_fresh(marks, row, stamp);
    }
    if !are_four_fresh(marks, row, 0, stamp) {
        return false;
    }
    are_four_fresh(marks, row, 4, stamp)
}

// A row whose own column is refused has it marked before the others, so that it counts as a repeat.
fn is_right_row(marks: &mut [u8; 4096], row: &[u32], own: usize, stamp: u8, refused: bool) -> bool
    requires { (own < 4096) × (all_below 4096 row.now ≡ true) × Below stamp marks.old }
    ensures { (result ≡ row_right refused own row.now) × Below (stamp + 1) marks.new }
{
    if refused {
        marks[own] = stamp;
    }
    is_row_fresh(marks, row, stamp)
}

// The end of a run of rows: a byte has a stamp for each of 255.
fn run_end(first: usize, rows: usize) -> usize
    requires { (first < rows) × (rows ≤ 4096) }
    ensures { (first < result) × (result ≤ first + 255) × (result ≤ rows) }
{
    if rows - first < 255 {
        rows
    } else {
        first + 255
    }
}

// A run of rows: one array of marks serves all of them, since each has a stamp of its own. The end of a row is kept as the start of the next.
#[tactic(auto, using(crate::proofs::RowLaws::row_in_order, crate::proofs::RowLaws::row_within, crate::proofs::RowLaws::part_below, crate::proofs::MarkLaws::marks_new))]
fn is_right_run(offsets: &[u32], columns: &[u32], first: usize, end: usize, refused: bool) -> bool
    requires { (Ready offsets.now columns.now) × (first ≤ end) × (end ≤ first + 255) × (end ≤ rows_of offsets.now) × (rows_right refused offsets.now columns.now first ≡ true) }
    ensures { result ≡ rows_right refused offsets.now columns.now end }
{
    let mut marks = [0u8; 4096];
    let mut stamp: u8 = 0;
    let mut from = offsets[first] as usize;
    for i in first..end {
        let to = offsets[i + 1] as usize;
        stamp += 1;
        if !is_right_row(&mut marks, &columns[from..to], i, stamp, refused) {
            return false;
        }
        from = to;
    }
    true
}

#[tactic(auto, using(crate::proofs::RowLaws::rows_stop_at), unfolding(crate::specs::Steps::rows_right, base::specs::All::all_to))]
fn are_right_rows(offsets: &[u32], columns: &[u32], refused: bool) -> bool
    requires { Ready offsets.now columns.now }
    ensures { result ≡ rows_right refused offsets.now columns.now (rows_of offsets.now) }
{
    let rows = offsets.len() - 1;
    let mut i = 0;
    // A step of a run, the last of which is shorter.
    while i < rows {
        let end = run_end(i, rows);
        if !is_right_run(offsets, columns, i, end, refused) {
            return false;
        }
        i = end;
    }
    true
}

// Rows that all climb are valid. Others may be too: then the marks decide.
#[tactic(auto, using(crate::proofs::SizeLaws::rows_least, crate::proofs::SizeLaws::rows_most, crate::proofs::RowLaws::wrong_offsets, crate::proofs::RowLaws::wrong_column, crate::proofs::RowLaws::rows_decide, crate::proofs::FastLaws::climbing_valid))]
fn is_valid(offsets: &[u32], columns: &[u32], refused: bool) -> bool
    requires { too_large (length offsets.now) (length columns.now) ≡ false }
    ensures { result ≡ valid_as refused offsets.now columns.now }
{
    if !has_valid_offsets(offsets, columns) {
        return false;
    }
    if are_climbing_rows(offsets, columns, refused) {
        return true;
    }
    if !are_below(columns, (offsets.len() - 1) as u32) {
        return false;
    }
    are_right_rows(offsets, columns, refused)
}

// A valid pattern.
pub fn is_valid_pattern(offsets: &[u32], columns: &[u32]) -> bool
    requires { too_large (length offsets.now) (length columns.now) ≡ false }
    ensures { result ≡ valid_pattern offsets.now columns.now }
{
    is_valid(offsets, columns, true)
}

// A pattern in which a row's own column may stand.
pub fn is_valid_entries(offsets: &[u32], columns: &[u32]) -> bool
    requires { too_large (length offsets.now) (length columns.now) ≡ false }
    ensures { result ≡ valid_entries offsets.now columns.now }
{
    is_valid(offsets, columns, false)
}

// Whether the seven steps between the eight columns from place k on rise, tested as in `do_eight_climb`.
fn do_seven_rise(row: &[u32], k: usize) -> bool
    requires { k + 8 ≤ length row.now }
    ensures { result ≡ seven_rise row.now k }
{
    let c0 = row[k];
    let c1 = row[k + 1];
    let c2 = row[k + 2];
    let c3 = row[k + 3];
    let c4 = row[k + 4];
    let c5 = row[k + 5];
    let c6 = row[k + 6];
    let c7 = row[k + 7];
    (c0 < c1) & (c1 < c2) & (c2 < c3) & (c3 < c4) & (c4 < c5) & (c5 < c6) & (c6 < c7)
}

// The steps from a place on, one at a time.
fn does_rest_rise(row: &[u32], from: usize) -> bool
    requires { (from ≤ length row.now - 1) × (rises_to row.now from ≡ true) }
    ensures { result ≡ rises row.now }
{
    for k in from + 1..row.len() {
        if row[k - 1] >= row[k] {
            return false;
        }
    }
    true
}

#[tactic(auto, using(crate::proofs::RiseLaws::rises_on, crate::proofs::RiseLaws::falls_on), unfolding(base::specs::All::all_to))]
fn rises_strictly(row: &[u32]) -> bool
    ensures { result ≡ rises row.now }
{
    let mut k = 0;
    // A step of seven: its tests are made at once.
    while k + 8 <= row.len() {
        if !do_seven_rise(row, k) {
            return false;
        }
        k += 7;
    }
    does_rest_rise(row, k)
}

// Whether place k of a row that rises is the first whose column exceeds `own`, or its end: the columns on both sides of it tell.
#[tactic(auto, using(crate::proofs::SplitLaws::not_past, crate::proofs::SplitLaws::not_below, crate::proofs::SplitLaws::is_first, crate::proofs::SplitLaws::before_decides))]
fn is_first_above(row: &[u32], own: u32, k: usize) -> bool
    requires { rises row.now ≡ true }
    ensures { result ≡ eqb k (first_above own row.now) }
{
    if k > row.len() {
        return false;
    }
    if k < row.len() {
        if row[k] <= own {
            return false;
        }
    }
    if k > 0 {
        return row[k - 1] <= own;
    }
    true
}

// Whether a row that begins at place `first` rises strictly and has a true split.
#[tactic(auto, using(crate::proofs::FactorLaws::falls, crate::proofs::FactorLaws::split_before, crate::proofs::FactorLaws::place_decides))]
fn is_factor_row(row: &[u32], own: u32, first: usize, split: usize) -> bool
    ensures { result ≡ factor_row own first split row.now }
{
    if !rises_strictly(row) {
        return false;
    }
    if split < first {
        return false;
    }
    is_first_above(row, own, split - first)
}

// Sorted rows and true splits, of a pattern that is valid.
#[tactic(auto, using(base::proofs::All::all_more, base::proofs::All::all_stop, crate::proofs::FactorLaws::all_rows, crate::proofs::FactorLaws::row_tested, crate::proofs::OffsetLaws::pattern_row_in_order, crate::proofs::OffsetLaws::pattern_row_within), unfolding(base::specs::All::all_to))]
pub fn has_valid_splits(offsets: &[u32], columns: &[u32], splits: &[u32]) -> bool
    requires { (too_large (length offsets.now) (length columns.now) ≡ false) × (length splits.now ≡ rows_of offsets.now) × (valid_pattern offsets.now columns.now ≡ true) }
    ensures { result ≡ valid_splits offsets.now columns.now splits.now }
{
    for i in 0..splits.len() {
        let first = offsets[i] as usize;
        let end = offsets[i + 1] as usize;
        let split = splits[i] as usize;
        if !is_factor_row(&columns[first..end], i as u32, first, split) {
            return false;
        }
    }
    true
}
