//! The tests by which it is decided that a report which was read from a log fits the order that it is of.
#![tactic(auto)]

pub mod allowed;
pub mod descs;
pub mod given;
pub mod known;
pub mod law;
pub mod names;
mod spellings;
pub mod stacks;
pub mod whole;
