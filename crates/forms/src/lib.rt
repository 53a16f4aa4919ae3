// The forms of an accepted name: definitions (specs/Forms.antt) and their laws alone.
#![tactic(auto)]
