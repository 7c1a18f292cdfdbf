//! A memo's file: entries with their whole keys, how they are read and written, and what was made for a key.
#![tactic(auto)]

pub mod entry;
pub mod fresh;
mod gathered;
pub mod law;
pub mod memo;
mod next;
pub mod read;
mod read_entry;
pub mod refusal;
pub mod write;
