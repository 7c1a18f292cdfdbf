// The bytes of values, descriptions and objects, and the names that are made of them. Two workers that meet the same
// description give it the same bytes, so they give it the same name and need not ask each other.
#![tactic(auto)]

pub mod law;
pub mod name;
pub mod object;
pub mod read;
pub mod read_object;
pub mod reader;
pub mod refusal;
pub mod text;
pub mod write;
pub mod writer;
