// Places by marks, of a row in any order: the mark of a column is the low byte of its place, and a place counts only if the row has the column there, so that no mark is ever cleared.
// These functions ask that each column is below 4,096 and stands once in its row, so that no user calls them.
ghost use Rattle.std.specs.Prelude.{◌≡◌, ◌<◌, length};
ghost use Rattle.rows.specs.Lookup.{place_in};
ghost use Rattle.places.specs.Places.{Markable, Marked};

use answers::Index;

// Each column of a row is marked. With whole places for marks the array would take 8 KiB.
#[tactic(auto, using(crate::proofs::PlaceLaws::small))]
pub fn mark_row(marks: &mut [u8; 4096], row: &[u32])
    requires { (length marks.old ≡ 4096) × (Markable row.now) }
    ensures { Marked row.now marks.new }
{
    for k in 0..row.len() {
        let column = row[k] as usize;
        marks[column] = (k % 256) as u8;
    }
}

// The place of a column in a row that was marked. Most rows are so short that there is one place to look at; the longest has 16.
#[tactic(auto, using(rows::proofs::LookupLaws::found_once, crate::proofs::PlaceLaws::ahead_none))]
pub fn place_of(marks: &[u8; 4096], row: &[u32], column: u32) -> u32
    requires { (Markable row.now) × (Marked row.now marks.now) × (column < 4096) }
    ensures { result ≡ place_in row.now column }
{
    let mut guess = marks[column as usize] as usize;
    // A step of 256: places that have the same low byte.
    while guess < row.len() {
        if row[guess] == column {
            // A place fits 16 bits. Where that is said, who asked doesn't compare a place that is found with "no place" again.
            return guess as u16 as u32;
        }
        guess += 256;
    }
    Index::NO_PLACE
}
