//! The machine's forms under way as a stack that can be saved. A form that is saved is its node, its step and the values that it
//! keeps; the trees that the machine's form borrows are found again by these.
#![tactic(auto)]

pub mod kept;
mod place;
pub mod save;
