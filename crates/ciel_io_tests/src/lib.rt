// Worked rows of data, files, sinks and the journal's turns, called one by one. They stand in a crate of their own, since a
// crate with tests is proved twice.
#![tactic(auto)]

#[cfg(test)]
mod data;
#[cfg(test)]
mod files;
#[cfg(test)]
mod journal;
#[cfg(test)]
mod keep;
