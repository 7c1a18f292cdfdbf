//! What an order brings along: found by names, and fetched from where it lies.
//!
//! What an order brings along is what the job's task holds there, and what was copied of it is the job's too: laws that a worker's
//! reports rest on.
#![tactic(auto)]

pub mod bring;
pub mod fetch;
pub mod gather;
pub mod index;
pub mod law;
pub mod places;
