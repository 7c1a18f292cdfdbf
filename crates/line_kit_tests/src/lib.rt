//! The worked rows of the executors over lines, and the short way to write their arguments, which the rows of the executors by pieces share.
#![tactic(auto)]

pub mod calls;
#[cfg(test)]
mod faults;
#[cfg(test)]
mod kit;
#[cfg(test)]
mod rows;
