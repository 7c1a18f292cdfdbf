//! Text that is safe to show: words without control characters, lines of them, and markup that is well formed, whatever stands in it.
#![tactic(auto)]

pub mod lines;
pub mod markup;
pub mod plain;
pub mod tag;
