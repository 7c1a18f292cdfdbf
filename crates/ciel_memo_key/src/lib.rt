//! The keys of a memo's entries: their bytes, how the key of a question compares with a stored one, and where it stands among keys that rise.
//! A question takes no memory.
#![tactic(auto)]

mod against;
pub mod key;
pub mod search;
pub mod write;
