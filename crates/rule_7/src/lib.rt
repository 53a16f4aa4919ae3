// Rule 7 of the soundness check.
#![tactic(auto)]

pub mod rule7;
