//! A run in lines of text: its tasks, its losses and its sum; and why a task was started, by the chain of needs from the result.
#![tactic(auto)]

mod label;
mod loss;
mod order;
mod replay;
mod search;
mod sum;
mod task;
pub mod text;
pub mod why;
