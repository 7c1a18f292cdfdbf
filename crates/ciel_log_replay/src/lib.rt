//! The replay of a run's log, as far as it stands on no file: losses that are due, and Starts.
//!
//! A replay makes the calls of a master that a run made, with no crew: it holds the orders that are out itself, by worker. What holds
//! between two records whatever the file says is `Between` (`specs/Between`); what a run's history says (`Kept` of `ciel_run_drive`) holds
//! as long as the file is the beginning of a log.
#![tactic(auto)]

pub mod losses;
pub mod rests;
pub mod starts;
