// The theorem on joining two names, in specs/. There is no code here.
#![tactic(auto)]
