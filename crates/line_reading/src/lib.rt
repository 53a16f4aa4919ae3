// Reading a line of the counter program.
#![tactic(auto)]

mod reading;

pub use reading::{find, read_line};

// The most bytes of a line of input.
pub const MOST_LINE: usize = 8192;

// The most numbers that such a line holds.
pub const MOST_NUMBERS: usize = (MOST_LINE + 1) / 2;
