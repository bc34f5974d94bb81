// Assembly with a diagonal from bytes to bytes, with N as a number: 4 bytes to an index, 8 to a value, the low byte first.
// What stands here asks of its caller that the checks by lengths have passed; `element_bytes` has these checks, and the calls.
#![tactic(auto)]

pub mod unchecked;
