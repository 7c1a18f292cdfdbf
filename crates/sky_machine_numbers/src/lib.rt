// The numbers of a script's nodes, counted once for a script: where each node ends, where the functions' blocks stand, and
// which node has a number.
#![tactic(auto)]

pub mod code;
mod ends;
mod exprs;
mod find_exp;
mod find_stm;
pub mod node;
pub mod nodes;
mod parts;
mod stmts;
pub mod tables;
