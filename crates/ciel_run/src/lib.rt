//! The top call of the program `ciel`: from the words of the command line and the bytes of the script to the bytes that go out. It is
//! generic over the files, the output, the log and the workers' gates, so that all that the program does is under its contract; `main`
//! only makes the real ones.
#![tactic(auto)]

pub mod law;
mod memo;
pub mod top;

pub use ciel_run_line::{draws, drive, run_job_run as run};
pub use ciel_run_load::{lines, script};
pub use ciel_run_log::{message, text, why};
