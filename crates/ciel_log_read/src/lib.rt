//! The reader of a log: its records, one behind the other, and what each tells.
#![tactic(auto)]

mod end;
pub mod file;
pub mod law;
mod parts;
pub mod read;
pub mod record;
mod report;
mod start;
