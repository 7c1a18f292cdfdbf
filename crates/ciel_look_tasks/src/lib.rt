//! The tasks of a run, from its story: which were started where, how each order ended, what lay where, and what each loss took.
#![tactic(auto)]

pub mod book;
pub mod make;
pub mod origins;
mod places;
pub mod register;
pub mod roll;
pub mod scene;
pub mod starts;
