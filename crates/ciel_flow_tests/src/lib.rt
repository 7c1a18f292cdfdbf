//! Rows of the crew with streams.
#![tactic(auto)]

#[cfg(test)]
mod rows;
#[cfg(test)]
mod run;
