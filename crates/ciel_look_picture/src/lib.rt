//! A run as a picture: a lane for each worker, and the graph of its tasks.
#![tactic(auto)]

mod edges;
mod graph;
mod nodes;
pub mod picture;
