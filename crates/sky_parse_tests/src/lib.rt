// Worked rows of the reader that no program shows: tokens with their places, the functions of scripts and the names that they use, and
// texts with many names. Where texts are no scripts stands in rows/. A crate of their own, since a crate with tests is proved twice.
#![tactic(auto)]

#[cfg(test)]
mod functions;
#[cfg(test)]
mod reading;
#[cfg(test)]
mod sentences;
#[cfg(test)]
mod speed;
#[cfg(test)]
mod tokens;
