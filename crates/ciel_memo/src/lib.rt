//! A kit that answers from the entries of a memo, and keeps what else it was asked, for as long as a run lasts and in a file behind it.
#![tactic(auto)]

pub mod fixed;
pub mod kit;
pub mod law;
mod rule;
