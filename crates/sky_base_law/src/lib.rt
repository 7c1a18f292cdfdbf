//! What is proved of the meaning of scripts and jobs: its laws as contracts, worked rows, and the
//! lemmas that the crates above cite. They stand apart from the language, so that a new law doesn't
//! prove the language again.
//!

#![tactic(auto)]

pub mod ends_law;
pub mod law;

// When a task comes to its end: laws of what a job means, which the worker's reports rest on.
