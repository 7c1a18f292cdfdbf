//! What a worker does with an order: the task goes on from the order's wait, through each wait whose objects the order brings along, and
//! its end, or its stack at the first other wait, is put on the worker's shelf and told in a report. Nothing is known here of who sends
//! orders and takes reports.
//!
//! What a task does that goes through its waits is what the report of an order may say of it.
//!
//! What an order brings along, as objects that a task finds by the names of their descriptions. Each is fetched where it is asked for,
//! and what lay on another worker's shelf is put on the own one, once.
#![tactic(auto)]

pub mod begin;
pub mod brought;
pub mod copied;
pub mod end;
pub mod law;
mod start;
pub mod task;

pub use sky_machine_through::{step, through};
