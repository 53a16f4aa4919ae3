// Facts about table files of an older version, in specs/. There is no code here.
#![tactic(auto)]
