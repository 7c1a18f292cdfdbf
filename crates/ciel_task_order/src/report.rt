//! A report: what a worker tells of an order.

use crate::block::{Block, Held};
use ciel_store::loss::Loss;
use ciel_store::seats::Seen;
use ciel_store::shelves::Place;
use sky_base::name::Name;
use sky_base::names::Names;
use sky_base::object::{Named, TaskId};
use sky_state::shown::Shown;

/// An output of the task: its name, where its object lies, and the object's mark.
#[derive(Drop)]
pub struct Made {
    pub name: Name,
    pub place: Place<Block>,
    pub mark: [u8; 20],
}

/// How the run of an order ended.
#[derive(Drop)]
pub enum End {
    /// The task came to its end; its outputs in order.
    Made(Vec<Made>),
    /// The task waits: where its stack lies, the number of the wait, the names waited for, the names that the stack holds,
    /// and the mark of the stack.
    Saved {
        frozen: Place<Block>,
        j: u32,
        refs: Names,
        holds: Names,
        mark: [u8; 20],
    },
    /// The root task came to its end.
    Shown(Shown),
    /// The object of this name, or the saved stack, lay at a worker that is lost. Where it is the stack, the name is the
    /// task's own, of the root task the main call's. `seen` is what the worker's eye had seen then.
    Missing {
        name: Name,
        loss: Loss,
        seen: Option<Seen>,
    },
}

/// What a worker tells of an order: what the task made since the order's wait, in order, what was copied to the worker's own
/// shelf, and the end.
#[derive(Drop)]
pub struct Report {
    pub number: u64,
    pub worker: u32,
    pub task: TaskId,
    pub spawned: Vec<Named>,
    pub copied: Vec<Held>,
    pub end: End,
}
