//! Rows of ready jobs and their seats.
#![tactic(auto)]

#[cfg(test)]
mod rows;
