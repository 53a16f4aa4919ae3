// Bits: laws only, in specs/. There is no code here.
#![tactic(auto)]
