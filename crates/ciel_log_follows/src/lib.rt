//! What a replay makes of a file that begins a log of a journal.
#![tactic(auto)]

pub mod law;
