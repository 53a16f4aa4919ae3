// Rounds of single replacement of many codepoints at once, window by window.
#![tactic(auto)]

pub mod rounds;
pub mod starts;
