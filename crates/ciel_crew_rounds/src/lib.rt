//! A crew that performs its orders by rounds: all that were sent, beside one another, where a report is asked for and none is kept.
//!
//! Each worker has a seat (`seat`), which tells what is kept of it. A round (`round`) puts the jobs that were sent on the lanes of
//! `ciel_crew_lanes`, and takes what comes of each. So no order sees what happens between two rounds, and which report comes next depends
//! on nothing but the orders.
#![tactic(auto)]

mod round;
pub mod rounds;
mod seat;
