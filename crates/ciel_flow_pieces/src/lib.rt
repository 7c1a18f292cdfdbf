//! The pieces of an output that is read while it is made: the rule of their channel, its two ends, the run of an executor that hands out
//! its output in pieces, and the run of another that is fed with them.
#![tactic(auto)]

pub mod begin;
pub mod ends;
pub mod follow;
pub mod law;
pub mod lead;
pub mod piece;
pub mod rule;
