//! The crews of a run: one of long-lived workers, each in a thread of its own where one can be had (`channels`), one that performs its
//! orders by rounds (`rounds`), and one that performs each order where it is sent (`inline`). What a crew is stands in `ciel_task_crew`.
#![tactic(auto)]

pub use ciel_crew_channels::channels;
pub use ciel_crew_inline::inline;
pub use ciel_crew_rounds::rounds;
