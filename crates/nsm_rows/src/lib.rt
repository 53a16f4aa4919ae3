// The full decomposition of a text, put in order for refusal 13: its codepoints are taken one by one, and of each class only the runs of nonspacing
// marks (NSM) are held.
#![tactic(auto)]

pub mod rows;
pub mod runs;
