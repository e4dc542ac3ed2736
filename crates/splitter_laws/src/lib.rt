// Theorems about cutting a command: see specs/ and proofs/. This crate has no code.

#![tactic(auto)]
