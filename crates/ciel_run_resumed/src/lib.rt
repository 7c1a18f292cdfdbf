//! A run that goes on from the log of another one.
//!
//! The log is replayed (`ciel_log_file`): the master stands where the other run stood, and has the orders that were out then. With them the run
//! is driven on (`ciel_run_onward`).
#![tactic(auto)]

pub mod begin;
pub mod run;
