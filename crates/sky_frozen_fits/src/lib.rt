//! Whether a state fits a script, tested exactly: what the table of saved forms says of a node at a step, and whether the values
//! that are kept and what stands above are as it says.
#![tactic(auto)]

pub mod entries;
pub mod exprs;
pub mod frames;
pub mod kinds;
pub mod places;
pub mod row;
pub mod stmts;
mod walk;
