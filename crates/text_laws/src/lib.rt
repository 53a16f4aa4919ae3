// Laws of decomposition, canonical ordering and composition on every table: theorems only, in specs/. There is no code here.
#![tactic(auto)]
