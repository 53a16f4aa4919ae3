// The bytes of the report as definitions, and how its lines stand one behind the other (specs/). There is no code here.
#![tactic(auto)]
