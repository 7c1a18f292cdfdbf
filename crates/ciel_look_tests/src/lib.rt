// The program `look` over a log in memory: what it writes, how it ends, and reads and writes that fail. A crate of its own, since a crate with
// tests is proved twice.
#![tactic(auto)]

#[cfg(test)]
mod calls;
#[cfg(test)]
mod rows;
