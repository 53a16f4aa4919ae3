// What the rules of the soundness check ask of the words of a section, and laws of the walks that ask it.
#![tactic(auto)]

pub mod spared;
