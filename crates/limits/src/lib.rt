// Each call of vectors and patterns at its limits: a function runs one case, by its number, and says what was seen.
// Nothing is printed here, so that nothing is assumed; the program `cases` goes through the numbers.
#![tactic(auto)]

pub mod filled;
pub mod pattern_cases;
pub mod ring;
pub mod sizes;
pub mod vector_cases;

use std::fmt;

// The number that a call answers, and whether every word that it could have written is as it was: both are known of each call.
#[derive(Clone, Copy)]
pub struct Seen {
    pub number: u32,
    pub kept: bool,
}

// A number of a line of cases; a call that was refused and changed a word is shouted. After 9 words may have changed.
impl fmt::Display for Seen {
    fn fmt<W: fmt::Write>(&self, f: &mut fmt::Formatter<W>) -> fmt::Result {
        write!(f, " {}", self.number)?;
        if self.number != 0 && self.number != 9 && !self.kept {
            f.write_str(" CHANGED")?;
        }
        Ok(())
    }
}
