#![tactic(auto)]
// No code: the three demands as theorems about `solve` (specs/ and proofs/).
