// Counts of roots and of wrong ones, and the lines that say them. A NaN counts as one pattern.
// Bits go to a value and back through the crate words, which knows NaN by one pattern.
use crate::checker::is_nearest;
use std::fmt;
use words::{bits_of, value_of};

// The bits of a negative zero, of plus infinity, and those that stand here for every NaN.
const SIGN: u64 = 0x8000_0000_0000_0000;

const INFINITY: u64 = 0x7ff0_0000_0000_0000;

const NAN: u64 = 0x7ff8_0000_0000_0000;

// A root that is not as it should be: the number, what came, and what was expected, if that is known.
#[derive(Clone, Copy)]
struct Wrong {
    x: u64,
    got: u64,
    want: Option<u64>,
}

impl fmt::Display for Wrong {
    fn fmt<W: fmt::Write>(&self, f: &mut fmt::Formatter<W>) -> fmt::Result {
        write!(f, "of {:016x} got {:016x}, ", self.x, self.got)?;
        match self.want {
            Some(want) => write!(f, "expected {want:016x}"),
            None => f.write_str("not nearest"),
        }
    }
}

// How many roots were taken, how many of them were wrong, and the first of those.
#[derive(Clone, Copy, Default)]
pub struct Tally {
    roots: u64,
    wrong: u64,
    first_wrong: Option<Wrong>,
}

// The bits of the library's root, of those of a number.
fn root_of(bits: u64) -> u64 {
    bits_of(root::square_root(value_of(bits)))
}

// Whether got is the answer for x: a NaN of a NaN and of what is below zero, a zero and plus infinity
// themselves, and otherwise the nearest double.
fn is_right(x: u64, got: u64) -> bool {
    if x % SIGN == 0 || x == INFINITY {
        return got == x;
    }
    if x > INFINITY {
        return got == NAN;
    }
    is_nearest(x, got)
}

impl Tally {
    pub fn is_empty(&self) -> bool {
        self.roots == 0
    }

    fn count(&mut self, wrong: Option<Wrong>) {
        self.roots = self.roots.wrapping_add(1);
        if let Some(wrong) = wrong {
            self.wrong = self.wrong.wrapping_add(1);
            self.first_wrong.get_or_insert(wrong);
        }
    }

    // The root of x is to have the bits want.
    pub fn compare(&mut self, x: u64, want: u64) {
        let got = root_of(x);
        let want = bits_of(value_of(want));
        let wrong = Wrong {
            x,
            got,
            want: Some(want),
        };
        self.count((got != want).then_some(wrong));
    }

    // The root of x is to be right by the checker.
    pub fn judge(&mut self, x: u64) {
        let got = root_of(x);
        let wrong = Wrong { x, got, want: None };
        self.count((!is_right(x, got)).then_some(wrong));
    }
}

// The counts, and on a line of its own the first wrong root.
impl fmt::Display for Tally {
    fn fmt<W: fmt::Write>(&self, f: &mut fmt::Formatter<W>) -> fmt::Result {
        write!(f, "{} roots, {} wrong", self.roots, self.wrong)?;
        match self.first_wrong {
            Some(wrong) => write!(f, "\n  first wrong: {wrong}"),
            None => Ok(()),
        }
    }
}
