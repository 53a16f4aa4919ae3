// Theorems about the payee book (specs/): it answers as a plain map does, and a payee found by a name is found by its normal form too.
#![tactic(auto)]
