// Composition of a text in place, and with canonical ordering before it.
#![tactic(auto)]

pub mod compose;
pub mod nfc;
