// Rules 6 to 8 from what walks over the sections can see, a few steps a word: theorems only, in specs/. There is no code here.
#![tactic(auto)]
