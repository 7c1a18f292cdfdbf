//! What the lanes of a crew with streams do: one performs an order, and may answer it with what was computed ahead and hand out its output
//! in pieces meanwhile; another follows such a stream.
#![tactic(auto)]

pub mod job;
mod make;
pub mod order;

pub use ciel_crew_work::{closing, crew, opening, order as work_order, performing, report, shop};
pub use ciel_flow_pieces::{ends, follow, piece};
