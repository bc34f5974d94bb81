// How many words a line has: a count for each slice, the call's numbers, its slices, its number and row, and what it leaves.
// A line of another length is no line of the call.
use crate::line::Line;
use std::ops::Range;

// How many slices a call lends, how many numbers, and which of the slices are left changed.
#[derive(Drop)]
pub struct Form {
    pub slices: usize,
    pub numbers: usize,
    pub written: Range<usize>,
}

impl Form {
    pub fn new(slices: usize, numbers: usize, written: Range<usize>) -> Self {
        Form {
            slices,
            numbers,
            written,
        }
    }

    pub fn words(self, line: &Line) -> usize {
        line.place(self.slices, self.slices)
            .saturating_add(self.numbers)
            .saturating_add(2)
            .saturating_add(line.counts(self.written))
    }
}
