// Rows of streams of pieces: one thread runs an executor and puts its output in pieces, and another runs a second executor on them.
#![tactic(auto)]

#[cfg(test)]
mod rows;
#[cfg(test)]
mod run;
