//! The lanes of a picture: one for each worker, with its starts, copies and loss.
#![tactic(auto)]

mod axis;
pub mod lanes;
