// What the parser holds of the text while it reads: its anonymous functions, the names in it, and the place of the first name that stands
// twice. It stands below the parser's functions, which read the tokens.
#![tactic(auto)]

pub mod made;
pub mod names;
