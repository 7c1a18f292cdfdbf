//! The records of a run's log: what each has, to the byte.
#![tactic(auto)]

pub mod end;
pub mod header;
pub mod parts;
pub mod report;
pub mod start;
