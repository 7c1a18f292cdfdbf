// One step of each form of an expression: how it is begun, and how it goes on with the value of a part. A step begins
// one part at most, so nothing here calls itself down the tree.
#![tactic(auto)]

pub mod ahead;
pub mod at_once;
pub mod chain;
pub mod first;
pub mod leaf;
pub mod logic;
pub mod signs;
