//! The replay of a log's file: the calls that its records tell, made again, up to a run that goes on.
#![tactic(auto)]

pub mod listed;
pub mod record;
pub mod refusal;
pub mod replay;
