// Theorems about the two lists of 02, Item 14 (specs/, proofs/): 14 exactly where there are groups, never the own one; a slot exactly where the
// name call answers otherwise; nothing for the table that filed the book.
#![tactic(auto)]
