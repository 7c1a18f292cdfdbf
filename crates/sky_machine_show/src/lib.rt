// The root task goes on from wave to wave of the result: the objects that a wave waited for stand in the place of their names, up to
// the next wave that waits for something, or to the answer.
#![tactic(auto)]

pub mod given;
pub mod show;
