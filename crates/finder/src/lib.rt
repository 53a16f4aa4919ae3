// The emoji finder: the sequence of a table that matches the start of an input and takes most of it.
#![tactic(auto)]

pub mod emoji;
pub mod shared;
