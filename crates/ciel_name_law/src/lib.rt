//! That the values of a run have one spelling in bytes: all that this asks and that types don't keep follows from what is
//! known of a run's values.
//!
//! What the types of a description keep, told by reading it: its numbers have 64 bits, its texts are UTF-8, the keys of its
//! dictionaries rise, and all that it refers to are names of 20 or 32 bytes. No contract of those that make descriptions says so, since
//! whoever reads one finds it so.
#![tactic(auto)]

pub mod law;
pub mod read;
