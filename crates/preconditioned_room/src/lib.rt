// Room for the words of the preconditioned solver on lent bytes. The checks that lead here, and the call, stand in `preconditioned_bytes`.
// Everything here asks something of its caller.
#![tactic(auto)]

pub mod unchecked;
