// Demand 3 (rules 11.4 and 11.5): theorems about cutting and joining, in specs/ and proofs/. There is no code.

#![tactic(auto)]
