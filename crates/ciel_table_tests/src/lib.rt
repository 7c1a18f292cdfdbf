// Worked rows of the table of descriptions and of what is searched in it. They stand in a crate of their own, since
// a crate with tests is proved twice. A row is steps and what is found after them, so that each call of the table is made
// in one place: what a function owes at a call, and lets go at every `?`, is proved once. What rows are made of stands in
// `made`, which the rows of a table whose tasks that can run are kept share.
#![tactic(auto)]

#[cfg(test)]
mod found;
pub mod made;
#[cfg(test)]
mod rows;
#[cfg(test)]
mod steps;
#[cfg(test)]
mod tasks;
