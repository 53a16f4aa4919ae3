// Text that needs no NFC is left as it is (the quick check of UAX 15), on every table: theorems only, in specs/. There is no code here.
#![tactic(auto)]
