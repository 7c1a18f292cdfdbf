// The world outside the engine, as three traits: files that are read whole, sinks that bytes are
// put into, and files that are kept while a run goes on. All that the engine proves of its output is
// proved of any of these. Those in memory say exactly what they hold; those of the host are the
// trusted edge, and say nothing.
#![tactic(auto)]

mod drawer;
mod fails;
pub mod files;
pub mod host;
pub mod host_keep;
pub mod keep;
pub mod mem_files;
pub mod mem_keep;
pub mod mem_sink;
pub mod pieces;
mod room;
mod rows;
mod shelf;
pub mod sink;
mod standing;
