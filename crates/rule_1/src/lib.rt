// Rule 1 of the soundness check.
#![tactic(auto)]

pub mod rule1;
