#![tactic(auto)]
// No code: the search as a machine over any step (specs/), and what its results mean (proofs/).
