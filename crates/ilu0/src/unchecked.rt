// A pattern's rows copied and sorted, for a pattern and lengths that were checked.
// These functions ask that of their callers, so that no user calls them.
ghost use Rattle.std.specs.Prelude.{◌≡◌, ◌≤◌, ltb, length};
ghost use Rattle.base.specs.First.{first_in};
ghost use Rattle.ilu0.specs.Steps.{InOrder, Ready, RowsSorted, Written};

use fill::clear;
use rows::sort;

// As many words over others. A loop: std's copy would call the C library's `memmove`, which no archive asks for.
fn copy(to: &mut [u32], from: &[u32])
    requires { length to.old ≡ length from.now }
    ensures { to.new ≡ from.now }
{
    for (k, word) in to.iter_mut().enumerate() {
        *word = from[k];
    }
}

// The first place of a row whose column exceeds i, or the row's end.
#[tactic(auto, using(base::proofs::First::first_start, base::proofs::First::first_skip, base::proofs::First::first_hit, base::proofs::First::first_end_lem))]
fn first_above(row: &[u32], i: u32) -> usize
    ensures { (result ≡ first_in (λ c. ltb i c) row.now) × (result ≤ length row.now) }
{
    for place in 0..row.len() {
        if row[place] > i {
            return place;
        }
    }
    row.len()
}

// Each row's own part is sorted, and its split is looked up there.
fn sort_rows(columns: &mut [u32], splits: &mut [u32], starts: &[u32])
    requires { InOrder starts.now (length columns.old) (length splits.old) }
    ensures { RowsSorted starts.now columns.old (length splits.old) columns.new splits.new }
{
    for i in 0..splits.len() {
        let a = starts[i] as usize;
        let b = starts[i + 1] as usize;
        sort(&mut columns[a..b]);
        let lower = first_above(&columns[a..b], i as u32);
        splits[i] = (a + lower) as u32;
    }
}

// The pattern with its rows sorted, zeros behind them, and the splits.
pub fn write_sorted(
    offsets: &mut [u32],
    columns: &mut [u32],
    splits: &mut [u32],
    starts: &[u32],
    entries: &[u32],
)
    requires { Ready starts.now entries.now (length offsets.old) (length columns.old) (length splits.old) }
    ensures { Written starts.now entries.now (length columns.old) offsets.new columns.new splits.new }
{
    let all = entries.len();
    copy(offsets, starts);
    copy(&mut columns[0..all], entries);
    clear(&mut columns[all..]);
    sort_rows(columns, splits, starts);
}
