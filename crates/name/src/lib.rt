// What the name call and the label call share: refusals 1 to 4, and the labels of a name with their places in the answer buffer. The definitions
// of both calls and their contracts stand here; the calls stand in crates above.
#![tactic(auto)]

pub mod admit;
pub mod labels;
