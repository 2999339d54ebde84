#![tactic(auto)]
// What the value rules promise; the theorems are in proofs/.
