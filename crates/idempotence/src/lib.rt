// Doing it again changes nothing: theorems only, in specs/. There is no code here.
#![tactic(auto)]
