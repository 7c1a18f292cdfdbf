//! Orders and reports: what the master asks of a worker, and what the worker tells of it. Neither evaluates anything; a block on
//! a shelf is an object or a stack that stands still.
#![tactic(auto)]

pub mod block;
pub mod order;
pub mod ready;
pub mod report;
pub mod shop;

pub use sky_machine_show::given;
