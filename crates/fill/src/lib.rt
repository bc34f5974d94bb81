// What the calls that write a pattern share in code: the check of the lengths of what is written, and words set to 0.
// The rest of the crate is the definition of the fill and its laws.
#![tactic(auto)]

ghost use Rattle.std.specs.Prelude.{◌≡◌, length, replicate};
ghost use Rattle.fill.specs.Promise.{wrong_outputs};

use answers::Entries;

// Check 2, of the lengths of the offsets, columns and splits of n rows.
pub fn is_wrong_output(n: usize, offsets: usize, columns: usize, splits: usize) -> bool
    ensures { result ≡ wrong_outputs n offsets columns splits }
{
    if offsets == 0 {
        return true;
    }
    if offsets - 1 != n {
        return true;
    }
    if Entries(columns).out_of_range() {
        return true;
    }
    splits != n
}

pub fn clear(s: &mut [u32])
    ensures { s.new ≡ replicate (length s.old) 0 }
{
    s.fill(0);
}

// The same for words of 16 bits.
pub fn clear_levels(levels: &mut [u16])
    ensures { levels.new ≡ replicate (length levels.old) 0 }
{
    levels.fill(0);
}
