//! What a log tells, entry by entry.

use crate::header::Header;
use sky_base::fault::Fault;
use sky_base::name::Name;
use sky_base::names::Names;
use sky_base::object::{Desc1, TaskId};

/// How an order ended.
#[derive(Drop)]
pub enum Outcome {
    /// The task came to its end: how many bytes each of its objects has.
    Made(Vec<usize>),
    /// The task waits: the number of the wait, how many bytes its stack has, and the names that it waits for, none where the stack can't be
    /// read.
    Saved { j: u32, weight: usize, waits: Names },
    /// The root task shows an answer of so many bytes.
    Answer(usize),
    /// The root task shows a fault.
    Fault(Fault),
    /// The object of this name, or the saved stack, lay at a worker that is lost: the number of the loss.
    Missing { name: Name, loss: u32 },
}

/// An order that ended: its number, the descriptions that were spawned, the names of the objects that were copied, and how it ended.
#[derive(Drop)]
pub struct Ended {
    pub number: u64,
    pub spawned: Vec<Desc1>,
    pub copied: Vec<Name>,
    pub how: Outcome,
}

/// An entry of a story.
#[derive(Drop)]
pub enum Told {
    /// A task was started: the number of the order, its worker, the wait from which the task goes on, and the task.
    Start {
        number: u64,
        worker: u32,
        from: u32,
        task: TaskId,
    },
    /// An order that was out ended.
    Ended(Ended),
    /// A worker was lost, when so many started tasks had been closed.
    Lost {
        worker: u32,
        after: u64,
    },
    /// A report came of an order that was out no longer.
    Late {
        number: u64,
    },
}

/// The story of a run: the header of its log, and what the log tells, in order.
#[derive(Drop)]
pub struct Story {
    pub header: Header,
    pub told: Vec<Told>,
}
