// Rule 8 of soundness as 02 says it, of every codepoint: theorems only, in specs/. There is no code here.
#![tactic(auto)]
