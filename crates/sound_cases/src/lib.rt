// Closed tables for the rules of the soundness check.
#![tactic(auto)]
