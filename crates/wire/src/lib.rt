// Values as the bytes that hosts lend: 8 bytes each, the low byte first, of the value's bits.
// Both directions are one loop over slices of any length, and stand in `unchecked`, since they ask that the lengths agree.
#![tactic(auto)]

pub mod unchecked;
