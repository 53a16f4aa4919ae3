// Published digests of Keccak-256.
#![tactic(auto)]
