// Executors over lines: what they give is the table in specs/Gives, row by row.
#![tactic(auto)]

pub mod arguments;
pub mod counts;
pub mod executor;
pub mod kit;
pub mod laws;
pub mod lines;
pub mod numbers;
mod orders;
pub mod output;
mod parts;
mod picks;
pub mod same;
pub mod search;
mod totals;
pub mod words;
