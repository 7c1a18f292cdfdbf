// Rows of whole runs that no program shows: ends that a message doesn't tell whole, namers of their own (names that clash, a description too
// many), and runs in one thread beside the same on threads. They stand in a crate of their own, since a crate with tests is proved twice, and
// each that stands on the engine loads it. What runs begin with (`job`) is no test, and the rows of gates share it.
#![tactic(auto)]

#[cfg(test)]
mod clashes;
pub mod job;
#[cfg(test)]
mod journal;
#[cfg(test)]
mod squares;
#[cfg(test)]
mod too_many;

pub use ciel_run_job::{hands, run};
pub use sky_machine_test_scripts::script;
