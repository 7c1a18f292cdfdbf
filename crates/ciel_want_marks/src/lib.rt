//! Which tasks of a graph can run, kept from one change to the next, so that a turn costs as much as what changed. Tasks and the names
//! that they wait for are numbers here; whose they are is known by those that use it.
#![tactic(auto)]

mod begin;
mod lists;
pub mod marks;
pub mod numbers;
pub mod rising;
