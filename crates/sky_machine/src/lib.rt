//! A task goes on from its state, and what that asks for and leaves: the steps of a script fit, and the next state fits the script. The
//! laws are contracts of `law`.
//!
//! How wide the nodes of a script are. A form under way is saved with the number of its step, in 32 bits; the laws say that this is
//! enough for every script that can be read. They are contracts of `law`.
#![tactic(auto)]

pub mod call;
pub mod law;
pub mod narrow_law;
pub mod resume;
pub mod step;

pub use sky_state::shown;
