// Rows of states that fit a script, and of bytes that are read as such. They stand in a crate of their own, since a crate with tests
// is proved twice.
#![tactic(auto)]

#[cfg(test)]
mod bytes;
#[cfg(test)]
mod judged;
#[cfg(test)]
mod rows;
#[cfg(test)]
mod states;
