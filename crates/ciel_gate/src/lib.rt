// Gates: what a worker enters before a task and leaves behind it. A gate shows which tasks a worker performed,
// and two of them can show that two workers performed at one time; the engine runs the same code with each.
#![tactic(auto)]

pub mod gate;
pub mod meeting;
pub mod open;
pub mod recorder;
