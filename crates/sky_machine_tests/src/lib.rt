// Rows of calls that begin and go on from their saved stacks. They stand in a crate of their own, since a crate with tests is proved
// twice.
#![tactic(auto)]

#[cfg(test)]
mod kinds;
#[cfg(test)]
mod made;
#[cfg(test)]
mod runs;
#[cfg(test)]
mod waits;
