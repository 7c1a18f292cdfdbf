//! The run of an executor's order, in three parts: its inputs are gathered, the kit is run once, and its outputs are put on the worker's
//! shelf and reported. Whoever has the outputs from elsewhere puts them in the place of the middle part.
#![tactic(auto)]

pub mod found;
pub mod make;
pub mod order;
mod publish;

pub use ciel_task_order::{block, order as task_order_order, report, shop};
