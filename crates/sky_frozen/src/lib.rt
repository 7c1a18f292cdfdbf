//! Whether a state fits a script, tested exactly, and bytes from outside that become a frozen state only where a state that fits
//! the script has them.
//!
//! Whether values are sound, tested exactly: whether each keeps the limits, and each function in it is one of the script and
//! captured only what it uses; and whether variables are those with which a body begins.
#![tactic(auto)]

pub mod captures;
pub mod fitting;
mod frames;
mod keys;
pub mod read;
mod start;
pub mod starts;
pub mod state;
pub mod values;

pub use sky_frozen_bytes::{frozen, refusal};
