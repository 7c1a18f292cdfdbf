//! A worker: what it does with any order, between its gate's entrance and exit.
#![tactic(auto)]

pub mod perform;

pub use ciel_task_crew::crew;
pub use ciel_task_exec::{block, report, shop, task_order_order as order};
