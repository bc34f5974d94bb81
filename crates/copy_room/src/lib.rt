// The copy of a matrix into a factor on lent bytes, once its lengths are checked: the words are read into room of its own, and what the call left is written back.
// All of it stands in `unchecked`, since it asks that the room holds what is lent.
#![tactic(auto)]

pub mod unchecked;
