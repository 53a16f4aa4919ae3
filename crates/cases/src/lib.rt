// The worked cases of the scope document, proved of the definitions in specs/. There is no code here.
#![tactic(auto)]
