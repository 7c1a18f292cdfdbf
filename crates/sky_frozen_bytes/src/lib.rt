//! Stacks as bytes. What stands of a task is written so that each state has one spelling: then its digest marks it, and
//! whoever holds the bytes holds the state.
#![tactic(auto)]

mod copies;
pub mod frozen;
pub mod law;
pub mod read;
pub mod refusal;
mod write;
