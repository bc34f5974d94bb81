// Where a column stands in a row: for the crates above, whose checks have shown that a row is not too long, and that it rises.
// These functions ask that of their callers, so that no user calls them.
ghost use Rattle.std.specs.Prelude.{◌≡◌, true, false, ◌≤◌, ltb, length};
ghost use Rattle.std.specs.List.Sorted.{IsPartitionPoint};
ghost use Rattle.patterns.specs.Pattern.{rises};
ghost use Rattle.rows.specs.Lookup.{place_in};

use answers::Index;

// The first place with that column, in a row in any order.
#[tactic(auto, using(crate::proofs::RowLaws::absent_of, crate::proofs::RowLaws::absent_more, crate::proofs::LookupLaws::found_at, crate::proofs::LookupLaws::found_nowhere))]
pub fn place_in(row: &[u32], column: u32) -> u32
    requires { length row.now ≤ 65535 }
    ensures { result ≡ place_in row.now column }
{
    for k in 0..row.len() {
        if row[k] == column {
            return k as u32;
        }
    }
    Index::NO_PLACE
}

// Where the columns from the one sought on begin, in a row that rises.
fn first_from(row: &[u32], column: u32) -> usize
    requires { rises row.now ≡ true }
    ensures within { result ≤ length row.now }
    ensures parted { IsPartitionPoint (λ y. ltb y column ≡ true) (λ y. ltb y column ≡ false) row.now result }
{
    row.partition_point(|other| *other < column)
}

// The same in a row that rises, by halves: columns before `low` are below the one sought, those from it on are not.
#[tactic(auto, using(crate::proofs::HalfLaws::found_low, crate::proofs::HalfLaws::found_past, crate::proofs::HalfLaws::found_end))]
pub fn place_in_rising(row: &[u32], column: u32) -> u32
    requires { (length row.now ≤ 65535) × (rises row.now ≡ true) }
    ensures { result ≡ place_in row.now column }
{
    let low = first_from(row, column);
    if low == row.len() {
        return Index::NO_PLACE;
    }
    if row[low] != column {
        return Index::NO_PLACE;
    }
    low as u32
}
