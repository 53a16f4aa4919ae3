// The eight rules of the soundness check, each a definition of its own, and what its answers mean: in specs/. There is no code here.
#![tactic(auto)]
