//! Where the faults of a job are: at tokens of its script, or nowhere.
#![tactic(auto)]

pub mod law;
