//! That each record of a run's log can be read.
#![tactic(auto)]

pub mod law;
