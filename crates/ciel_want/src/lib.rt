//! Lazy evaluation: which tasks of a table are wanted, which of them can run, and where tasks wait for each other in a
//! circle. Each is searched in the table as it stands: a search goes through each task that it reaches once, with a flag
//! for each row, and looks names up in the table's map.
//!
//! Of a run's table only a circle is searched so, once, at the end of a run in which nothing is out and nothing can run.
//! What can run the master has from `ciel_want_ready`, which keeps it from one change of the table to the next, and answers
//! the list that is defined here. `circle` asks `runnable` first; else `runnable` and `wanted` are asked by tests alone.
#![tactic(auto)]

mod flags;
mod follow;
pub mod law;
mod needs;
mod order;
mod search;
pub mod want;
pub mod whole;
