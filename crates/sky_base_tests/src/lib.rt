// Worked rows of values and names, called one by one. They stand in a crate of their own, since a crate with tests is proved
// twice.
#![tactic(auto)]

#[cfg(test)]
mod functions;
#[cfg(test)]
mod names;
#[cfg(test)]
mod values;
