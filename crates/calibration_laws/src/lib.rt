// Theorems about the definitions of the calibration profile: see specs/ and proofs/. There is no code here.

#![tactic(auto)]
