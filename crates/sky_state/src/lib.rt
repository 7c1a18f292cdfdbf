//! Stacks as data. The run of a call stops where it waits, and what then stands of it is data: the frames of
//! the bodies that are open, each with its variables, the forms under way in it and the values that these
//! keep. It can be saved, moved to another worker and gone on with there.
#![tactic(auto)]

pub mod frame;
pub mod law;
pub mod shown;
pub mod spawned;
pub mod start;
pub mod state;
