// A script that can be run: its functions are found by their names, and its nodes are numbered, so that a form that
// goes on knows the number of its next part without a walk through the part before it.
#![tactic(auto)]

pub mod code;
pub mod shape;

pub use sky_base_scope::{ops, places, program, state};
