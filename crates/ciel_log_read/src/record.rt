//! What the records of a log tell.

use sky_base::fault::Fault;
use sky_base::name::Name;
use sky_base::object::{Desc1, Object, TaskId};
use sky_base::text::Bytes;

/// How an order ended, as the record of its report tells.
#[derive(Drop)]
pub enum LoggedEnd {
    /// The task came to its end: the objects of its outputs, in order.
    Made(Vec<Object>),
    /// The task waits: the number of the wait, and the bytes of its stack.
    Saved { j: u32, stack: Bytes },
    /// The root task shows an answer: its bytes.
    Answer(Bytes),
    /// The root task shows a fault.
    Fault(Fault),
    /// The object of this name, or the saved stack, lay at a worker that is lost: the number of the loss.
    Missing { name: Name, loss: u32 },
}

/// A report, as its record tells it: the number of its order, the descriptions that were spawned, the names of the objects that were copied,
/// and how the order ended.
#[derive(Drop)]
pub struct LoggedReport {
    pub number: u64,
    pub spawned: Vec<Desc1>,
    pub copied: Vec<Name>,
    pub end: LoggedEnd,
}

/// A record of a log, behind its header.
#[derive(Drop)]
pub enum Record {
    /// An order went to its worker: its number, the worker, the wait from which its task goes on, and the task.
    Start {
        number: u64,
        worker: u32,
        from: u32,
        task: TaskId,
    },
    /// A report came.
    Report(LoggedReport),
    /// A report came when its worker was lost: the number of its order.
    Dropped {
        number: u64,
    },
}
