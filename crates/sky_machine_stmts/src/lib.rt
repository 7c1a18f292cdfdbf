// One step of each statement and of each block: how it is begun, and how it goes on.
#![tactic(auto)]

pub mod arms;
pub mod at_once;
pub mod block;
pub mod loops;
pub mod rounds;
pub mod stmt;
