//! The journal of a run on an abstract job: what stands after what happened, which histories are
//! lawful and driven, and the laws of them.
#![tactic(auto)]

pub mod law;
pub mod turn;
