//! From a line of the command to what is seen of a log, and how it ends.
#![tactic(auto)]

pub mod ends;
pub mod line;
pub mod look;
pub mod message;
