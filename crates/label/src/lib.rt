// The rules of one label, refusals 8 to 14 and 16, and its kind.
#![tactic(auto)]

pub mod cells;
pub mod judging;
