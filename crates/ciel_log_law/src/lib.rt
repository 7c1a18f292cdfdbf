//! What the file of a run's log tells of the run's journal.
#![tactic(auto)]

pub mod law;

pub use ciel_log::{logged, state};
pub use ciel_run_drive::{draws, drive, master, plan};
