//! A job on the engine: a shop, a master and a crew are opened over it, and the run is driven to its end.
//!
//! What executes is the crew that the caller's hands say (`ciel_crew_choice`): the one in one thread (`ciel_crew_inline`), a crew of threads
//! (`ciel_crew_channels`), one that begins on what is still made (`ciel_flow`) or one that shares its threads (`ciel_steal`); `run_inline` has
//! the one in one thread. Nothing that is said here speaks of any of them: the end, the journal and what the gates tell are those that driving
//! promises of any crew.
#![tactic(auto)]

pub mod gates;
pub mod opening;
pub mod run;

pub use ciel_crew_channels::channels;
pub use ciel_crew_choice::hands;
pub use ciel_crew_inline::inline;
pub use ciel_flow::streams;
pub use ciel_run_drive::{draws, law};
pub use ciel_steal::steal;
