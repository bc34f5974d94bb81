// Values as the words that programs print and hosts lend: 64 bits each.
// A NaN is written as one fixed pattern, and any NaN pattern is read as NaN, so that no payload passes either way.
#![tactic(auto)]

pub mod unchecked;

ghost use Rattle.std.specs.Prelude.{◌≡◌, ◌≤◌, length};
ghost use Rattle.std.specs.Float.{binary64};
ghost use Rattle.std.specs.Float.Ieee.{to_bits, of_bits};
ghost use Rattle.words.specs.Text.{first_byte};

// The bits of a value; of a NaN 7FF8000000000000.
pub fn bits_of(x: f64) -> u64
    ensures { result ≡ to_bits binary64 x }
{
    if x != x {
        return 0x7FF8000000000000;
    }
    f64::to_bits(x)
}

// The value that bits stand for.
pub fn value_of(bits: u64) -> f64
    ensures { result ≡ of_bits binary64 bits }
{
    if bits % 0x8000000000000000 > 0x7FF0000000000000 {
        return 0.0 / 0.0;
    }
    f64::from_bits(bits)
}

// The index of the first such byte of a text, or the text's length if there is none.
pub fn first_of(text: &[u8], byte: u8) -> usize
    ensures value { result ≡ first_byte byte text.now }
    ensures upper_bound { result ≤ length text.now }
{
    text.iter().position(|b| *b == byte).unwrap_or(text.len())
}
