//! A report that tells an event of the job's own history passes the tests by which a report that was read is decided to fit its order.
#![tactic(auto)]

pub mod law;
