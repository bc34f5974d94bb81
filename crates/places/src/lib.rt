// Where the columns of a row stand, kept beside the row in a local array of marks: a search by halves at each lookup is up to four times as slow.
// The functions stand in `unchecked`, since they ask that each column is below 4,096 and stands once in its row.
#![tactic(auto)]

pub mod unchecked;
