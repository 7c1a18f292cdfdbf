//! A crew whose workers begin on what is still made: while an order is performed that makes what another task reads, a second lane runs
//! that task's executor on the pieces.
#![tactic(auto)]

mod begin;
pub mod lanes;
pub mod streams;

pub use ciel_flow_work::crew;
