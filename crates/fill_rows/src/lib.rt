// One row of the fill: its levels in a row of words, and how they are written out. What the rows together are is for the crates above.
// The functions ask that the rows before it are written, and stand in `unchecked` for that.
#![tactic(auto)]

pub mod unchecked;
