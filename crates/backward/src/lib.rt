// The way back: the rows are cut to the situations from which the end can be reached, and then the least moves give the witness.

#![tactic(auto)]

pub mod prune;
pub mod walk;
