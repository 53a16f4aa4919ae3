// The lines of the counter program: splitting input into them.
#![tactic(auto)]

mod splitting;

pub use splitting::{Taken, take_line};
