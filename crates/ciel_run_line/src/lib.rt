//! From a line of the command to what its job comes to: the job is loaded or generated, and answered by the sequential interpreter or on
//! the engine.
#![tactic(auto)]

pub mod answer;
pub mod given;
mod header;
pub mod lines;
mod recall;

pub use ciel_log::state;
pub use ciel_master::entry;
pub use ciel_run_logged::{draws, drive, law, run_job_run};
