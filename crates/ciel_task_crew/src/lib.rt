//! Crews: what the master sends its orders to and takes reports from. A crew says nothing of how and where orders are performed, so
//! the same run is proved once for all of them.
#![tactic(auto)]

pub mod crew;

pub use ciel_master_safe::{orders_are_safe, rows_stay, tasks_stay, turns_come_to_an_end};
