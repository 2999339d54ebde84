#![tactic(auto)]
// Laws of the graph file that other crates' proofs cite (`proofs/`). No code.
