// The preconditioner's solve without checks: forward, then backward.
// The functions stand in `unchecked`, since they ask for a factor that is valid; the checked calls are in the crate above.
#![tactic(auto)]

pub mod unchecked;
