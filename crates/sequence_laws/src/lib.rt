// Theorems about the lists of compound sequences of 02, Item 12 (specs/): what a list of a table that was laid out holds, 16 of a whole label, and
// that with no list no call answers 16.
#![tactic(auto)]
