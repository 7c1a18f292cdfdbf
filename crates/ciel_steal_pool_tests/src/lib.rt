//! Rows of a pool: that outputs come, by threads and without, which no clause says.
#![tactic(auto)]

#[cfg(test)]
mod jobs;
#[cfg(test)]
mod rows;
