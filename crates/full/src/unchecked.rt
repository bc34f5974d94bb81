// The rows of a full pattern, for lengths that were checked.
// These functions ask that of their callers, so that no user calls them.
ghost use Rattle.std.specs.Prelude.{◌≡◌, ◌+◌, ◌-◌, ◌≤◌, ◌<◌, length};
ghost use Rattle.fill.specs.Fill.{listed};
ghost use Rattle.fill.specs.Steps.{put};
ghost use Rattle.full.specs.Full.{others};
ghost use Rattle.full.specs.Steps.{Roomy, Rows};

// A part of the columns rises by one from its first word on.
#[tactic(auto, using(base::proofs::Each::each_none))]
fn count_up(part: &mut [u32], first: u32)
    requires { first + length part.old ≤ 4096 }
    ensures { part.new ≡ listed (λ c. c) first (length part.old) }
{
    for (k, column) in part.iter_mut().enumerate() {
        *column = first + k as u32;
    }
}

// Row i stands from `at` on: its lower part, then its upper one.
#[tactic(auto, using(crate::proofs::RowLaws::others_put))]
fn put_others(columns: &mut [u32], at: usize, i: usize, n: usize)
    requires { (i < n) × (n ≤ 4096) × (at + (n - 1) ≤ length columns.old) }
    ensures { columns.new ≡ put at (others n i) columns.old }
{
    let split = at + i;
    let end = at + (n - 1);
    count_up(&mut columns[at..split], 0);
    count_up(&mut columns[split..end], (i + 1) as u32);
}

// All rows, with their offsets and splits. Columns past the last entry stay.
#[tactic(auto, using(crate::proofs::RowLaws::going_fits))]
pub fn write_rows(offsets: &mut [u32], columns: &mut [u32], splits: &mut [u32], n: usize)
    requires { Roomy n (length offsets.old) (length columns.old) (length splits.old) }
    ensures { Rows n columns.old offsets.new columns.new splits.new }
{
    let others = n - 1;
    offsets[0] = 0;
    let mut at = 0;
    for i in 0..n {
        splits[i] = (at + i) as u32;
        put_others(columns, at, i, n);
        at += others;
        offsets[i + 1] = at as u32;
    }
}
