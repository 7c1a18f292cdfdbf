//! Ready jobs: one queue that a master feeds, and a seat for each thread, with a queue of its own from which the others steal.
#![tactic(auto)]

pub mod ends;
pub mod keeps;
pub mod law;
mod log;
pub mod ready;
pub mod rule;
