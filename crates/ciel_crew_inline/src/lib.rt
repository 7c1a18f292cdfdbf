//! A crew that performs each order where it is sent, one after another.
#![tactic(auto)]

pub mod inline;
mod seats;
