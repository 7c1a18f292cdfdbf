//! How a call of the program ends: why, with which status and which message, and what is written of an answer.
//!
//! The text of a journal, put in pieces and without memory.
#![tactic(auto)]

mod lines;
pub mod message;
pub mod output;
pub mod text;
pub mod why;
