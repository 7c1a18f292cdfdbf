//! A saved stack, taken up again: all its forms under way, each with the trees that are still to come, so that the machine goes on
//! where it stopped.
#![tactic(auto)]

mod few;
mod keeps;
pub mod restore;
