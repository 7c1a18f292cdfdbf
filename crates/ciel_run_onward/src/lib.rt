//! A run that goes on from where a log stands.
//!
//! The orders that were out are sent to the crew of this run before a log is kept around it, so that their starts aren't written again; then the
//! run is driven on.
#![tactic(auto)]

pub mod gates;
pub mod run;
