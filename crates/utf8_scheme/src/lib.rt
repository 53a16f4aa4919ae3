// UTF-8 (RFC 3629): the scheme, that reading is its only inverse, and how reading goes on. Specs alone; there is no code here.
#![tactic(auto)]
