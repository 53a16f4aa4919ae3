// Rule 4 of the soundness check.
#![tactic(auto)]

pub mod rule4;
