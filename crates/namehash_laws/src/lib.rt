// Theorems on the name hash.
#![tactic(auto)]
