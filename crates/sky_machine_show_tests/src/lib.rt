// Worked rows of the waves of the result over names. They stand in a crate of their own, since a crate with tests is proved twice.
#![tactic(auto)]

#[cfg(test)]
mod made;
#[cfg(test)]
mod rows;
