// Rule 5 of the soundness check.
#![tactic(auto)]

pub mod rule5;
