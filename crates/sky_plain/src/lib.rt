// The sequential interpreter: what a job means, computed without an engine. A call's run goes up to its
// end or to an object that isn't known; then that object is made first, and the run begins anew.
#![tactic(auto)]

pub mod plain;
mod settle;
mod stack;
