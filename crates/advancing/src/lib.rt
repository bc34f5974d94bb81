// A step of the conjugate gradient methods along a direction, and what else both solvers share.
// All of it stands in `unchecked`, since it asks that the matrix is valid and that the lengths fit it.
#![tactic(auto)]

pub mod unchecked;
