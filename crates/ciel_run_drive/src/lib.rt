//! A run: a master and a crew, turn after turn, up to its end.
//!
//! What holds between two turns is one fact about the state of the master and what the crew has (`specs/Kept`); each turn keeps it and
//! leaves less to do, so a run comes to its end without a budget. `specs/Ended` says how runs end, and why.
#![tactic(auto)]

pub mod draws;
pub mod drive;
pub mod law;
pub mod turn;

pub use ciel_master::{entry, master, plan, stop};
pub use ciel_task_crew::crew;
