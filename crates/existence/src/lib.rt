#![tactic(auto)]
// No code: where the table of crate reach differs from existence of a value, and that it differs nowhere else.
