//! An order: from which of its waits a worker is to go on with a task, and what it may need for that.

use crate::block::{Block, Held};
use ciel_store::shelves::Place;
use sky_base::name::Name;
use sky_base::object::{Desc1, TaskId};

/// What the master asks of a worker.
#[derive(Drop)]
pub struct Order {
    /// The number of the Start, counted from 0 over the run.
    pub number: u64,
    /// The worker that is asked.
    pub worker: u32,
    pub task: TaskId,
    /// What the task is the call or the executor task of, an executor's output 0; none of the root task.
    pub desc: Option<Desc1>,
    /// The name of the main call.
    pub main: Name,
    /// The wait from which the task goes on, 0 at its start.
    pub from: u32,
    /// Where the stack of that wait lies; none at the start.
    pub saved: Option<Place<Block>>,
    /// Where the objects lie that what stands of the task there refers to, as far as they are known.
    pub inputs: Vec<Held>,
}
