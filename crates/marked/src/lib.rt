#![tactic(auto)]
// The marked cases, as one table with one proof; the table is specs/Cases.antt.
