// The lines of the fixed list whose calls are lent slices of any length: how long they are, how their words are read, and the lines of vectors and patterns.
// A line's words are the count of each slice, then the call's numbers and slices in its order, its number and row, and what it leaves.
#![tactic(auto)]

pub mod length;
pub mod line;
pub mod pattern_lines;
pub mod vector_lines;
