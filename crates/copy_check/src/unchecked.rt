// The places of A's entries in a factor: a quick way that finds A right where it is, and the exact one, for what the quick one leaves open.
// These functions ask that the factor's pattern is valid and that the lengths fit, so that no user calls them.
ghost use Rattle.std.specs.Prelude.{◌≡◌, true, false, ◌+◌, ◌≤◌, ◌<◌, length};
ghost use Rattle.patterns.specs.Pattern.{rows_of, all_below, valid_offsets, valid_pattern};
ghost use Rattle.patterns.specs.Checks.{too_large};
ghost use Rattle.patterns.specs.Marks.{Below};
ghost use Rattle.factors.specs.Copy.{row_has_places, all_have_places};
ghost use Rattle.places.specs.Places.{Markable};
ghost use Rattle.copy_check.specs.Steps.{Agree, Patterns};
ghost use Rattle.copy_check.specs.Stamps.{Only, Takes, Placed, PlacedRows};

use answers::Index;
use patterns::unchecked::never_fall;
use places::unchecked::{mark_row, place_of};

// How many columns two rows of one length begin with alike: these need no marks, and a row of ILU(0) has no others if A's is sorted.
// Rows that differ in length have others at once, and are not gone through for that.
fn agreeing(row: &[u32], from: &[u32]) -> usize
    ensures { Agree row.now from.now result }
{
    if row.len() != from.len() {
        return 0;
    }
    for k in 0..row.len() {
        if row[k] != from[k] {
            return k;
        }
    }
    row.len()
}

// Whether each column of A's row has a place in the factor's row.
#[tactic(auto, using(base::proofs::All::all_more, base::proofs::All::all_stop, places::proofs::PlaceLaws::small, crate::proofs::LookLaws::agree_has), unfolding(factors::specs::Copy::row_has_places, factors::specs::Copy::has_place))]
fn row_has_places(marks: &mut [u8; 4096], row: &[u32], from: &[u32]) -> bool
    requires { (length marks.old ≡ 4096) × (Markable row.now) × (all_below 4096 from.now ≡ true) }
    ensures { (result ≡ row_has_places row.now from.now) × (length marks.new ≡ 4096) }
{
    let alike = agreeing(row, from);
    if alike == from.len() {
        return true;
    }
    mark_row(marks, row);
    for k in alike..from.len() {
        if place_of(marks, row, from[k]) == Index::NO_PLACE {
            return false;
        }
    }
    true
}

// Whether each entry of A has a place in the factor.
#[tactic(auto, using(base::proofs::All::all_none, base::proofs::All::all_more, base::proofs::All::all_stop, crate::proofs::LookLaws::both_ends, crate::proofs::LookLaws::looks), unfolding(patterns::specs::Pattern::row_of, factors::specs::Copy::all_have_places))]
pub fn has_all_places(starts: &[u32], entries: &[u32], offsets: &[u32], columns: &[u32]) -> bool
    requires { Patterns starts.now entries.now offsets.now columns.now }
    ensures { result ≡ all_have_places starts.now entries.now offsets.now columns.now }
{
    let mut marks = [0u8; 4096];
    let rows = starts.len() - 1;
    for i in 0..rows {
        let first = starts[i] as usize;
        let past = starts[i + 1] as usize;
        let from = offsets[i] as usize;
        let to = offsets[i + 1] as usize;
        if !row_has_places(&mut marks, &columns[from..to], &entries[first..past]) {
            return false;
        }
    }
    true
}

// A stamp that no mark has: a byte has one for each of 255 rows, and then all marks are cleared.
fn next_stamp(marks: &mut [u8; 4096], stamp: u8) -> u8
    requires { Below (stamp + 1) marks.old }
    ensures { (1 ≤ result) × Below result marks.new }
{
    if stamp == 255 {
        marks.fill(0);
        return 1;
    }
    stamp + 1
}

// The columns of the factor's row get the stamp.
#[tactic(auto, using(places::proofs::PlaceLaws::small, crate::proofs::StampLaws::only_none, crate::proofs::StampLaws::only_more, crate::proofs::StampLaws::below_more, crate::proofs::StampLaws::below_next))]
fn stamp_row(marks: &mut [u8; 4096], row: &[u32], stamp: u8)
    requires { (Below stamp marks.old) × (all_below 4096 row.now ≡ true) }
    ensures { (Below (stamp + 1) marks.new) × Only stamp row.now marks.new }
{
    for column in row {
        marks[*column as usize] = stamp;
    }
}

// A column of A's row has to have the stamp, and loses it, so that a repeat has none.
#[tactic(auto, using(crate::proofs::StampLaws::unsure))]
fn is_next_taken(marks: &mut [u8; 4096], from: &[u32], k: usize, stamp: u8) -> bool
    requires { (length marks.old ≡ 4096) × (k < length from.now) × (1 ≤ stamp) }
    ensures { (length marks.new ≡ 4096) × (result ≡ true → Takes stamp from.now k (k + 1) marks.old marks.new) }
{
    if from[k] >= 4096 {
        return false;
    }
    let column = from[k] as usize;
    if marks[column] != stamp {
        return false;
    }
    marks[column] = 0;
    true
}

// Four columns, written out: a loop over one at a time takes a quarter more time.
#[tactic(auto, using(crate::proofs::StampLaws::unsure))]
fn are_four_taken(marks: &mut [u8; 4096], from: &[u32], k: usize, stamp: u8) -> bool
    requires { (length marks.old ≡ 4096) × (k + 4 ≤ length from.now) × (1 ≤ stamp) }
    ensures { (length marks.new ≡ 4096) × (result ≡ true → Takes stamp from.now k (k + 4) marks.old marks.new) }
{
    if !is_next_taken(marks, from, k, stamp) {
        return false;
    }
    if !is_next_taken(marks, from, k + 1, stamp) {
        return false;
    }
    if !is_next_taken(marks, from, k + 2, stamp) {
        return false;
    }
    is_next_taken(marks, from, k + 3, stamp)
}

// The columns from a place on, one at a time.
#[tactic(auto, using(crate::proofs::StampLaws::unsure))]
fn are_rest_taken(marks: &mut [u8; 4096], from: &[u32], start: usize, stamp: u8) -> bool
    requires { (length marks.old ≡ 4096) × (start ≤ length from.now) × (1 ≤ stamp) }
    ensures { (length marks.new ≡ 4096) × (result ≡ true → Takes stamp from.now start (length from.now) marks.old marks.new) }
{
    for k in start..from.len() {
        if !is_next_taken(marks, from, k, stamp) {
            return false;
        }
    }
    true
}

// All columns of A's row.
#[tactic(auto, using(crate::proofs::StampLaws::unsure))]
fn are_all_taken(marks: &mut [u8; 4096], from: &[u32], stamp: u8) -> bool
    requires { (length marks.old ≡ 4096) × (1 ≤ stamp) }
    ensures { (length marks.new ≡ 4096) × (result ≡ true → Takes stamp from.now 0 (length from.now) marks.old marks.new) }
{
    let mut k = 0;
    // A step of four, written out for speed.
    while k + 4 <= from.len() {
        if !are_four_taken(marks, from, k, stamp) {
            return false;
        }
        k += 4;
    }
    are_rest_taken(marks, from, k, stamp)
}

// Whether each column of A's row is one of the factor's row, and none stands there twice. No mark is above the stamp afterwards.
fn is_row_placed(marks: &mut [u8; 4096], row: &[u32], from: &[u32], stamp: u8) -> bool
    requires { (1 ≤ stamp) × (Below stamp marks.old) × (all_below 4096 row.now ≡ true) }
    ensures { result ≡ true → (Below (stamp + 1) marks.new) × Placed row.now from.now }
{
    stamp_row(marks, row, stamp);
    are_all_taken(marks, from, stamp)
}

// Whether each row of A is placed.
#[tactic(auto, using(patterns::proofs::MarkLaws::marks_new, patterns::proofs::Use::row_ends, crate::proofs::LookLaws::ends, crate::proofs::StampLaws::unsure))]
fn are_rows_placed(starts: &[u32], entries: &[u32], offsets: &[u32], columns: &[u32]) -> bool
    requires { (1 ≤ length starts.now) × (rows_of starts.now ≤ 4096) × (length offsets.now ≡ length starts.now) × (valid_offsets starts.now entries.now ≡ true) × (valid_pattern offsets.now columns.now ≡ true) }
    ensures { result ≡ true → PlacedRows starts.now entries.now offsets.now columns.now (rows_of starts.now) }
{
    let mut marks = [0u8; 4096];
    let mut stamp: u8 = 0;
    let rows = starts.len() - 1;
    for i in 0..rows {
        let first = starts[i] as usize;
        let past = starts[i + 1] as usize;
        let from = offsets[i] as usize;
        let to = offsets[i + 1] as usize;
        stamp = next_stamp(&mut marks, stamp);
        if !is_row_placed(&mut marks, &columns[from..to], &entries[first..past], stamp) {
            return false;
        }
    }
    true
}

// Whether the rows of A lie one after the other and have all its entries.
#[tactic(auto, using(patterns::proofs::OffsetLaws::wrong_first, patterns::proofs::OffsetLaws::wrong_order, patterns::proofs::OffsetLaws::last_decides))]
fn has_valid_starts(starts: &[u32], entries: &[u32]) -> bool
    requires { 1 ≤ length starts.now }
    ensures { result ≡ valid_offsets starts.now entries.now }
{
    if starts[0] != 0 {
        return false;
    }
    if !never_fall(starts) {
        return false;
    }
    starts[starts.len() - 1] as usize == entries.len()
}

// Whether A's pattern is the factor's, as with ILU(0) if A's rows are sorted. Where it is not, the first row tells, for most.
#[tactic(auto, using(crate::proofs::StampLaws::unsure))]
pub fn is_same_pattern(starts: &[u32], entries: &[u32], offsets: &[u32], columns: &[u32]) -> bool
    ensures { result ≡ true → (starts.now ≡ offsets.now) × (entries.now ≡ columns.now) }
{
    entries == columns && starts == offsets
}

// Whether the quick way finds that A is valid and that each of its entries has a place. If not, it may be so all the same.
// A row of A whose columns are some of the factor's row, each once, is as valid as that one: so A's columns need no check of their own.
#[tactic(auto, using(patterns::proofs::SizeLaws::rows_least, patterns::proofs::SizeLaws::rows_most, patterns::proofs::SizeLaws::columns_most, crate::proofs::StampLaws::unsure, crate::proofs::PlacedLaws::same_placed))]
pub fn is_surely_placed(starts: &[u32], entries: &[u32], offsets: &[u32], columns: &[u32]) -> bool
    requires { (too_large (length starts.now) (length entries.now) ≡ false) × (too_large (length offsets.now) (length columns.now) ≡ false) × (rows_of offsets.now ≡ rows_of starts.now) × (valid_pattern offsets.now columns.now ≡ true) }
    ensures { result ≡ true → (valid_pattern starts.now entries.now ≡ true) × (all_have_places starts.now entries.now offsets.now columns.now ≡ true) }
{
    if is_same_pattern(starts, entries, offsets, columns) {
        return true;
    }
    if !has_valid_starts(starts, entries) {
        return false;
    }
    are_rows_placed(starts, entries, offsets, columns)
}
