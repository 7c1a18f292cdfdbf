// Expressions of the parser: signs and words in front of the tokens, parameters, and trees of expressions. The bodies
// of functions are statements, which a crate above reads, so the function that reads them is handed in. Each function
// does what the machine of the grammar does on the tokens, and reads a tree that spells them.
#![tactic(auto)]

pub(crate) mod begin;
pub mod build;
pub mod expr;
pub mod function;
pub(crate) mod level;
pub mod look;
pub(crate) mod parts;
pub(crate) mod whole;
