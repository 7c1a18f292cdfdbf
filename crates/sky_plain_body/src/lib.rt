// The run of one call's body over the script's statements, up to its end or to an object that isn't known.
#![tactic(auto)]

pub mod run;
mod stmt;
