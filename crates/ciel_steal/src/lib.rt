//! A crew whose workers share a few threads.
//!
//! Each worker has a desk (`ciel_crew_lanes`), on which an order is laid with the worker's gate and eye (`ciel_crew_work`), and from which the
//! report comes back with both, whichever thread worked there (`ciel_steal_pool`). So no report can be that of another order, and no gate that
//! of another worker.
#![tactic(auto)]

pub mod steal;
