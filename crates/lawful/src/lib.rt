#![tactic(auto)]
// What the search asks of a play (crate search, specs/Lawful.antt), shown of the play of edition one over an accepted file. No code.
