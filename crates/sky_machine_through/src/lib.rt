//! A task goes on from wait to wait, as long as the objects of all that it waits for are found by their names. The law on what that is
//! for the task is the contract of `law`.
#![tactic(auto)]

pub mod find;
pub mod law;
pub mod through;

pub use sky_machine::step;
