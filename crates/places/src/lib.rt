// Where each token of a label stands in the input (02, Item 9). The definitions and laws are in specs/.
#![tactic(auto)]
