// The parser: from the tokens of a script to its trees. What a script is stands in the crate of the grammar, and
// expressions are read in the crate below; each function here does what the machine of the grammar does on the tokens,
// and reads a tree that spells them.
#![tactic(auto)]

pub(crate) mod body;
pub(crate) mod brackets;
pub mod script;
pub(crate) mod stmt;
