// How a task goes on from a wait, by names: the words for it, and laws of what it waited for and makes.
#![tactic(auto)]

pub mod law;
