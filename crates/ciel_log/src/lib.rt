//! A crew that keeps a log of its run.
#![tactic(auto)]

mod log;
pub mod logged;
mod reading;
pub mod state;
