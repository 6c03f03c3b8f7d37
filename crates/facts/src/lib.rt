// The small facts of document 01: definitions and one proof, no code.
#![tactic(auto)]
