// Tokens: the step at one codepoint. The definitions of the scan, of tokens and of their cells stand here; the code that lays them down, scans a
// label and puts texts into normal form stands in crates above.
#![tactic(auto)]

pub mod single;
