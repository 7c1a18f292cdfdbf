// Rows of the text of a journal, and of the message of each end. They stand in a crate of their own, since a crate with tests is proved twice.
#![tactic(auto)]

#[cfg(test)]
mod messages;
#[cfg(test)]
mod rows;
