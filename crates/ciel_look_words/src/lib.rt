//! Descriptions in words, and with their names.
#![tactic(auto)]

pub mod known;
pub mod label;
mod short;
mod value;
pub mod words;
