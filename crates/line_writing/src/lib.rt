// Writing the lines of the counter program.
#![tactic(auto)]

mod answering;
mod writing;

pub use answering::write_answer;
pub use writing::{write_bad, write_end, write_no, write_ok, write_word};

// The longest line for a refused name, and the longest last line.
pub const MOST_NO_LINE: usize = 2 + 21 + 21 + 1;

pub const MOST_END_LINE: usize = 3 + 21 + 1;
