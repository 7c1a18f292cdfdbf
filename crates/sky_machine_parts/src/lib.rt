// The forms that are visited after all of their parts, and the descriptions that are made, each with its name.
#![tactic(auto)]

pub mod formed;
pub mod made;
pub mod parts;
