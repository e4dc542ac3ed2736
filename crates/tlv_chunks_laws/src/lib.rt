// Theorems about the definitions of a record in chunks: see specs/ and proofs/. There is no code here.

#![tactic(auto)]
