// The grammar of scripts: trees of the text, the tokens that spell them, and the script that they make.
// Its definitions stand in specs/, its laws are contracts of `law`. The parser, which goes from tokens to
// trees, stands in a crate above, so that a change of its code proves no law again.
#![tactic(auto)]

pub mod law;
pub mod level;
pub mod parts;
