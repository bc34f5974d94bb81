// The way of the calls that write a pattern from lent bytes to lent bytes: 4 bytes to an index, the low byte first.
// It asks that the lengths were checked, so that all of it stands in `unchecked`.
#![tactic(auto)]

pub mod unchecked;
