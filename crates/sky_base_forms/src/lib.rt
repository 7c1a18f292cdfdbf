// The forms of an expression, each visited after its parts. The trees above them are run in another crate, so
// that a change of a form doesn't check the trees.
#![tactic(auto)]

pub mod forms;
pub mod given;
pub mod ground;
