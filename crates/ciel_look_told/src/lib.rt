//! What a run's log tells: its header, and entry by entry what happened.
#![tactic(auto)]

pub mod header;
pub mod told;
