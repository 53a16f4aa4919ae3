// Laws of decomposition, composition and NFC on tables that keep rule 6: theorems only, in specs/. There is no code here.
#![tactic(auto)]
