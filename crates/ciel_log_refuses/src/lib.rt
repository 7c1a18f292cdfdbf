//! The law of refusals: which files a replay refuses.
#![tactic(auto)]

pub mod law;
