// Theorems about building a command: see specs/ and proofs/. This crate has no code.

#![tactic(auto)]
