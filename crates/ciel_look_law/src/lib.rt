//! The law of what is told of a run's log: it is the journal's own.
#![tactic(auto)]

pub mod law;
