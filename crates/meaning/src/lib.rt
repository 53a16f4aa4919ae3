// What the numbers that the calls answer mean: theorems alone, in specs/.
#![tactic(auto)]
