// Unicode text: Hangul and combining classes. The definitions of decomposition, canonical ordering and composition stand here too; their code
// stands in crates above.
#![tactic(auto)]

pub mod class;
pub mod hangul;
