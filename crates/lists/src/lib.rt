// Lists: definitions and laws only, in specs/. There is no code here.
#![tactic(auto)]
