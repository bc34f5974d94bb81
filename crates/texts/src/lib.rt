// How the programs print values: each as the 16 hexadecimal digits of its bits, with a space before it.
// Nothing is printed here, so that nothing is assumed.
#![tactic(auto)]

use std::fmt;

// A value as its bits; a NaN is one pattern.
#[derive(Clone, Copy)]
pub struct Bits(pub f64);

impl fmt::Display for Bits {
    fn fmt<W: fmt::Write>(&self, f: &mut fmt::Formatter<W>) -> fmt::Result {
        write!(f, "{:016x}", words::bits_of(self.0))
    }
}

// Values one after the other.
#[derive(Clone, Copy)]
pub struct Values<'a>(pub &'a [f64]);

impl fmt::Display for Values<'_> {
    fn fmt<W: fmt::Write>(&self, f: &mut fmt::Formatter<W>) -> fmt::Result {
        for value in self.0 {
            write!(f, " {}", Bits(*value))?;
        }
        Ok(())
    }
}
