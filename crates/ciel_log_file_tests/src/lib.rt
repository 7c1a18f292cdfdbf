// Rows of replays: small logs of one job, with ample memory. They stand in a crate of their own, since a crate with tests is proved twice.
#![tactic(auto)]

#[cfg(test)]
mod logs;
#[cfg(test)]
mod made;
#[cfg(test)]
mod rows;
