// Theorems about what is collected from a card (rules 14.1 to 14.9), in specs/ and proofs/. There is no code.

#![tactic(auto)]
