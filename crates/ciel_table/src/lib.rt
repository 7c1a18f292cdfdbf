//! The table of a run: what is known of each object's description, where the object lies, and where its task goes on. It
//! holds one description for each name, so that a digest that clashes is met here and not later; and it holds nothing at
//! a worker that was dropped.
#![tactic(auto)]

mod dropped;
pub mod refusal;
pub mod row;
pub mod table;
pub mod wait;
