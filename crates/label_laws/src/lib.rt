// Facts about the look-alike test, in specs/. There is no code here.
#![tactic(auto)]
