//! The report of a log's record, taken again: tested against the order that it is of, with its blocks put on the shelf of the order's
//! worker, and handed to the master.
#![tactic(auto)]

pub mod ends;
pub mod report;
pub mod take;
