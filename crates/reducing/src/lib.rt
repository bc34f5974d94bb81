// The reduction of a row of a factor by the rows before it: the inner loops of document 01's `decompose_N`.
// They stand in `unchecked`, since they ask that a factor's pattern is valid and that the lengths fit it.
#![tactic(auto)]

pub mod unchecked;
