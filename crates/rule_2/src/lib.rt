// Rule 2 of the soundness check, and the laws of a test of every codepoint, which rule 6 shares.
#![tactic(auto)]

pub mod rule2;
