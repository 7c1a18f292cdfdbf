// The values of expressions. How a body is run at a call is handed in, so that expressions don't stand on
// statements, and a change of a statement doesn't check expressions.
#![tactic(auto)]

pub mod expr;
