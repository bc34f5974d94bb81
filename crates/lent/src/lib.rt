// Block operations on lent slices: what the crates above do to one block or one row at a time, or to as many as a slice has.
// They ask that the blocks are there, and stand in `unchecked` for that.
#![tactic(auto)]

pub mod unchecked;
