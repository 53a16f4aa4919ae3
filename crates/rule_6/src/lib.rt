// Rule 6 of the soundness check.
#![tactic(auto)]

pub mod rule6;
