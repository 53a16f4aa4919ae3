// The list that a call of Item 14 fills: definitions and laws only, in specs/. There is no code here: `name::labels::put_label` puts the words of
// an entry behind those before it, and `ending::finish` ends the call.
#![tactic(auto)]
