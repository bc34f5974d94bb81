// Whether each entry of A has its place in a factor, which `copy_value` finds out before it writes.
// The functions stand in `unchecked`, since they ask that the factor's pattern is valid and that the lengths fit.
#![tactic(auto)]

pub mod unchecked;
