//! The words of the command line: which words are a line of the command, and what the line says. The words are taken apart by one simple
//! command of `clap`, with each value as text; what the values mean is read here.
#![tactic(auto)]

mod command;
mod inputs;
pub mod law;
mod line;
mod losses;
mod numbers;
mod raw;
pub mod words;
