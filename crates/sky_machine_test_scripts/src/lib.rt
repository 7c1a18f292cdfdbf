//! What rows begin with: the script of a text, and the state of its main call at the start. Crates of tests share it.
#![tactic(auto)]

pub mod script;
pub mod start;
