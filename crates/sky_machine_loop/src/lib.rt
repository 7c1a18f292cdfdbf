// The machine: a call runs step by step, up to its next wait or its end.
#![tactic(auto)]

pub mod begin;
pub mod got;
pub mod law;
pub mod run;
pub mod start;

pub use sky_machine_calls::block;
pub use sky_machine_parts::made;
