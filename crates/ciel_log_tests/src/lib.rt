//! Rows of the records of a log, and of a crew that keeps one.
#![tactic(auto)]

#[cfg(test)]
mod deaf;
#[cfg(test)]
mod kit;
#[cfg(test)]
mod logged;
#[cfg(test)]
mod made;
#[cfg(test)]
mod reads;
#[cfg(test)]
mod records;
