//! Objects of a log, put on a worker's shelf again.
#![tactic(auto)]

pub mod objects;
