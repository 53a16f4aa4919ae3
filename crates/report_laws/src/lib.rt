// What holds of the report of every accepted name (02, Item 9): theorems only, in specs/. There is no code here.
#![tactic(auto)]
