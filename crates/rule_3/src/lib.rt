// Rule 3 of the soundness check.
#![tactic(auto)]

pub mod rule3;
