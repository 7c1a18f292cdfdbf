// Descriptions under numbers, each held once, the objects that are known of them, and bytes as data: what
// a sequential run of a job holds.
#![tactic(auto)]

pub mod data;
pub mod objects;
pub mod rows;
pub mod sum;

pub use ciel_json::write;
