//! The tasks that can run, kept from one change of the table to the next, so that a turn costs as much as what changed and not as much
//! as the table. What can run stands in `ciel_want`; what is kept for it, by numbers, in `ciel_want_marks`. After a loss, and whenever the
//! marks don't tell all, the next question searches anew.
#![tactic(auto)]

mod anew;
mod change;
mod follow;
mod needs;
mod nodes;
mod reads;
pub mod ready;
mod search;
