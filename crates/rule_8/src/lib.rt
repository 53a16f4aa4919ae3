// Rule 8 of the soundness check.
#![tactic(auto)]

pub mod rule8;
