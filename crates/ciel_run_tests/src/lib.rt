// The rows of the program that need files and sinks in memory: reads, writes and logs that fail at a given call, and what a run's log has. All
// other rows of the program stand in rows/, and the built program runs them. A crate of their own, since a crate with tests is proved twice.
// How the program is called (`calls`) is no test, and the rows of gates share it.
#![tactic(auto)]

pub mod calls;
#[cfg(test)]
mod failing;
#[cfg(test)]
mod logs;
