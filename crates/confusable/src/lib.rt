// Refusal 14, defined, and the laws of the extent: in specs/. There is no code here.
#![tactic(auto)]
