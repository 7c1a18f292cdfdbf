//! From paths to a job: the script at a path is read and is to be one, and then its inputs are read, each in its turn. The job that is
//! generated comes from no file.
//!
//! The input of a generated job: lines of one word each, of a hundred words, in an order that a generator of numbers gives.
#![tactic(auto)]

pub mod generated;
mod inputs;
pub mod lines;
pub mod load;
pub mod read;
pub mod script;
