//! The story that a run's log tells: its header, and its records in order, with the losses where they are due.
#![tactic(auto)]

mod outcome;
mod read_header;
pub mod story;
mod teller;
