// The state of a call that runs as a machine: the forms under way on a list, and what is to be done next. Its meaning is
// the rest of the run.
#![tactic(auto)]

pub mod control;
pub mod entry;
pub mod list;
pub mod visit;
