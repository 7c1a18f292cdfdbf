//! A run that keeps a log of itself: the crew of the run is one that writes each start and each report behind a file before anybody acts on
//! it.
//!
//! What the run comes to is what it comes to without a log; what is said of the file follows from what the crew tells of its calls
//! (`ciel_log`), and from what driving says that calls make of the journal (`ciel_log_law`).
#![tactic(auto)]

pub mod run;

pub use ciel_log_law::{draws, drive};
pub use ciel_run_job::{hands, law, run as run_job_run};
