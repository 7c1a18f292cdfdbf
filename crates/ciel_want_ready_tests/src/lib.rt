// Worked rows of a table whose tasks that can run are kept. They stand in a crate of their own, since a crate with tests is proved twice.
// A row is steps and the task that each turn starts, so that each call is made in one place.
#![tactic(auto)]

#[cfg(test)]
mod rows;
#[cfg(test)]
mod steps;
