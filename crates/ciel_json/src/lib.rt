// JSON: values of scripts as JSON texts, and JSON texts as values of scripts. The texts are read and
// written by `serde_json`, and its definitions are the meaning; nothing of it is written or proved
// anew here.
#![tactic(auto)]

pub mod law;
pub mod read;
pub mod write;
