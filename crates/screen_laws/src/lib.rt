// Laws of the screen form alone: proofs/RestoredLaws.antt has the theorem that 02's Item 1 wants, specs/Restored.antt what it says.
#![tactic(auto)]
