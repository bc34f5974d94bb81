// The preconditioned conjugate gradient method without checks, at each size.
// All of it stands in `unchecked`, since it asks that matrix and factor are valid and that the lengths fit them.
#![tactic(auto)]

pub mod unchecked;
