// Rows of the tests by which a report that was read from a log is decided to fit its order: each with ample memory, where it answers yes and
// where it answers no.
#![tactic(auto)]

#[cfg(test)]
mod allowed;
#[cfg(test)]
mod known;
#[cfg(test)]
mod names;
#[cfg(test)]
mod read;
#[cfg(test)]
mod stacks;
#[cfg(test)]
mod waits;
#[cfg(test)]
mod whole;
