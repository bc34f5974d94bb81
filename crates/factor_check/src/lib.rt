// What all calls on a factor check of it: its lengths, its pattern, and its sorted rows and splits.
// The functions stand in `unchecked`, since they ask that check 1 was made.
#![tactic(auto)]

pub mod unchecked;
