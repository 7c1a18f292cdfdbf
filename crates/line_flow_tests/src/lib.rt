// The worked rows of the executors by pieces: tests stand here, since a crate with tests is proved twice.
#![tactic(auto)]

#[cfg(test)]
mod calls;
#[cfg(test)]
mod drains;
#[cfg(test)]
mod faults;
#[cfg(test)]
mod rows;
