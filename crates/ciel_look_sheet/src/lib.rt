//! What a picture is drawn on, and the colours and labels of tasks.
#![tactic(auto)]

pub mod nodes;
pub mod sheet;
