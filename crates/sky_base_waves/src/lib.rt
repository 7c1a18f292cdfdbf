// A wave of the result: the value with each reference replaced by what it refers to.
#![tactic(auto)]

pub mod known;
pub mod wave;
