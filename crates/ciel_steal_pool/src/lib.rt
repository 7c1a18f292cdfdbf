//! Workers that share a few threads. Each worker has a desk (`ciel_crew_lanes`), whose chair stands behind a lock. The number of a worker with
//! a job on its desk lies among the ready ones (`ciel_steal_ready`), and a thread that hears a bell takes one number, works at that chair once
//! and hands the number back.
//!
//! No clause says that a thread gets on, that a bell comes, or that a call returns: a call under `Wait` keeps its promise if it returns.
#![tactic(auto)]

mod hall;
mod place;
pub mod pool;
mod serve;
