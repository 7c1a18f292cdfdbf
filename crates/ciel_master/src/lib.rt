//! The master: who does what, and what was done. It evaluates nothing and speaks of names alone.
//!
//! Contracts see its state as `Board` of `ciel_master_board`: each call makes one move of that state, and what is said of histories
//! follows from the laws there. What an order brings along is made below (`ciel_master_bring`); `learning` and `placing` take a report's spawned list
//! and its objects, `orders` holds what is out; `master` is the whole.
#![tactic(auto)]

mod closing;
pub mod entry;
mod learning;
mod marks;
pub mod master;
mod orders;
mod placing;
pub mod plan;
pub mod stop;
mod taking;
