// What a run of a script's body stands in: its state, the functions of the script, the operators of the
// language, and why a run stops before its end; with the definition of what a run does over numbers.
#![tactic(auto)]

pub mod cut;
pub mod funs;
pub mod ops;
pub mod places;
pub mod program;
pub mod state;
