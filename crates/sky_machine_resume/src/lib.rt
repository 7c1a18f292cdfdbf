// A call begins, or goes on from a saved stack: the stack is opened, its wait is answered, the machine runs, and the stack of the
// next wait is saved.
#![tactic(auto)]

pub mod on;
pub mod start;
