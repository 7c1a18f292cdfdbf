// Rows of tasks that go through the waits whose objects are found. They stand in a crate of their own, since a crate with tests is
// proved twice.
#![tactic(auto)]

#[cfg(test)]
mod calls;
pub mod finder;
#[cfg(test)]
mod root;
#[cfg(test)]
mod runs;
