//! What crews of long-lived workers share: an order with what its worker owns (`performing`), what a crew begins with (`opening`), and the
//! gates at the end (`closing`).
//!
//! A worker's gate and eye travel with its order and come back with the report, so what a worker owns is always in one place. How an order
//! comes to its worker, and how its report comes back, is for each crew to say.
#![tactic(auto)]

pub mod closing;
pub mod opening;
pub mod performing;

pub use ciel_task::crew;
pub use ciel_task_order::{order, report, shop};
