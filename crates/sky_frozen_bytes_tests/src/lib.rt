// The worked rows of frozen states and of the machine's forms that are saved. They stand in a crate of their own, since a crate with tests is proved
// twice.
#![tactic(auto)]

#[cfg(test)]
mod frozen;
#[cfg(test)]
mod read;
#[cfg(test)]
mod saved;
#[cfg(test)]
mod states;
