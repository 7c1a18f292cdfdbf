//! Saved forms, opened: from the node, the step and the values that were saved of it a form under way is again what it was, with
//! the trees that are still to come.
#![tactic(auto)]

pub mod block;
mod chain;
pub mod expr;
mod first;
pub mod node;
pub mod parts;
pub mod postfix;
mod signs;
pub mod stmt;
mod turns;
