// One step of indices and calls: a call opens the body of its function, as one more form under way.
#![tactic(auto)]

pub mod call;
pub mod postfix;

pub use sky_machine_stmts::{arms, at_once, block, loops, rounds, stmt};
