//! What an order brings along: where the objects lie that its task holds and that are live, each at the order's own worker if it has one
//! there, else at the least that has it.
#![tactic(auto)]

pub mod bring;
