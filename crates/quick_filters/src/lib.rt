// Filters of codepoints and an index of records, by which walks over the decompositions ask in a step or two.
#![tactic(auto)]

pub mod filters;
pub mod slots;
