// The cases P1 to P12 as one table, compared with the definitions (rule 11.14): see specs/ and proofs/. It has no code.

#![tactic(auto)]
