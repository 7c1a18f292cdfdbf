// Executors over lines whose inputs come in pieces: what they give is the table of `line_kit`, for every cutting
// of the inputs, and what is settled can be had before the inputs end.
#![tactic(auto)]

mod blocks;
mod buffer;
mod entries;
pub mod flow;
mod found;
mod halves;
mod head;
pub mod kit;
mod lined;
mod order;
mod pair;
mod rest;
mod settled;
mod slots;
mod stream;
mod sums;
mod totals;
mod turns;
