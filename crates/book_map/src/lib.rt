// The map that the payee book is compared with, and its laws (specs/, proofs/): what saving, finding and forgetting does to the slots, it does to
// the map.
#![tactic(auto)]
