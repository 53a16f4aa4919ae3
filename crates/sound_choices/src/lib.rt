// The decomposition records that replace codepoints, chosen window by window; specs/Rounds.antt has what the rounds are.
#![tactic(auto)]

pub mod choices;
