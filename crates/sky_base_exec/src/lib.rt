// Executor tasks: their inputs as bytes, their arguments with slots for references, what one run of the
// kit makes of them, and which objects are known then. All outputs of a task become known by that run.
#![tactic(auto)]

pub mod inputs;
pub mod law;
pub mod outputs;
pub mod slots;
pub mod task;
