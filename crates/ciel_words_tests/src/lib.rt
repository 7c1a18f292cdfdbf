// Rows of what the words of a line say. What is no line stands in rows/words.toml. A crate of their own, since a crate with tests is
// proved twice.
#![tactic(auto)]

#[cfg(test)]
mod pictures;
#[cfg(test)]
mod rows;
