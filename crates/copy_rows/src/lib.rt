// The work of document 01's `copy_value`: the diagonal, and the entries row by row.
// The functions stand in `unchecked`, since they ask that both patterns are valid, that each entry of A has a place and that the lengths fit.
#![tactic(auto)]

pub mod unchecked;
