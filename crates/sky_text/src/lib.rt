// The tokens of Skywriting: their types, and the lexer.
#![tactic(auto)]

pub mod law;
pub mod lex;
mod scan;
pub mod token;
