#![tactic(auto)]
// The order in which the source lists the nodes below a root: its definition and its laws (`specs/`, `proofs/`). No code.
