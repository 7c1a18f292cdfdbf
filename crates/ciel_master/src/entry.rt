//! The journal: what the master did and was told, by names.

use sky_base::name::Name;
use sky_base::names::Names;
use sky_base::object::TaskId;

/// An entry of the journal.
#[derive(Drop)]
pub enum Entry {
    /// A task was started at a worker from one of its waits, 0 at its start. Starts are numbered from 0.
    Start {
        number: u64,
        worker: u32,
        task: TaskId,
        from: u32,
    },
    /// The task of this Start came to its end: its outputs in order with the marks of their objects, of the root task none; and
    /// what was copied to its worker's shelf.
    Done {
        number: u64,
        made: Vec<(Name, [u8; 20])>,
        copied: Names,
    },
    /// It waits, at this wait, and its stack with this mark was saved.
    Saved {
        number: u64,
        j: u32,
        mark: [u8; 20],
    },
    /// The object of this name, or its stack, was missing with the worker of this loss.
    Missed {
        number: u64,
        name: Name,
        lost: u32,
    },
    /// A worker was lost when so many Starts had been closed.
    Lost {
        worker: u32,
        after: u64,
    },
}
