//! A crew of long-lived workers, each in a thread of its own where one can be had.
//!
//! Each worker has a desk (`ciel_crew_lanes`), on which an order is laid with the worker's gate and eye (`ciel_crew_work`), and from which the
//! report comes back with both. So what a worker owns is always in one place, and no report can be that of another order. The threads are
//! started where the crew is opened, and joined where it is closed; the calls between only lay and take.
#![tactic(auto)]

pub mod channels;
