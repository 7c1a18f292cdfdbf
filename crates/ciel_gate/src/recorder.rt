// A gate that keeps a list of the tasks entered.

ghost use Rattle.std.specs.Prelude.{◌≡◌, [], Some, IfOk, IfSome};
ghost use Rattle.ciel_gate.specs.Entered.{IsEntered, Told, longer};

use crate::gate::Gate;
use sky_base::object::TaskId;
use sky_base::text::Memory;
use std::alloc::Global;
use std::marker::Model;

/// A gate that tells the tasks entered while the room that was made for them lasts. Contracts see the list,
/// where it is told, and the room.
#[derive(Drop)]
pub struct Recorder {
    tasks: Vec<TaskId>,
    is_told: bool,
}

impl Model for Recorder {
    ghost use Rattle.std.specs.Prelude.{Some, None, if◌then◌else◌, vec_capacity};
    ghost use Rattle.ciel_gate.specs.Entered.{Told};

    ghost Value = { Told };

    ghost view = { λ r. record { tasks = if r.is_told then Some r.tasks.items else None; room = vec_capacity r.tasks } };
}

impl Recorder {
    /// A gate with room for so many tasks.
    pub fn new(alloc: Global, capacity: u32) -> Result<Recorder, Memory>
        ensures empty { IfOk result (λ r. r ≡ record { tasks = Some []; room = capacity }) }
    {
        match Vec::with_capacity(alloc, capacity as usize) {
            Ok(tasks) => Ok(Recorder {
                tasks,
                is_told: true,
            }),
            Err(_) => Err(Memory),
        }
    }

    /// The tasks entered, in order, while they are told.
    pub fn tasks(&self) -> &[TaskId]
        ensures tasks { IfSome self.now.tasks (λ tasks. result.now ≡ tasks) }
    {
        self.tasks.as_slice()
    }
}

impl Gate for Recorder {
    ghost entered = { λ r. r.tasks };

    /// The list has the task as its last where there is room; else it is no longer told.
    fn enter(&mut self, task: &TaskId)
        ensures entered { IsEntered self.old.tasks task.now self.new.tasks }
        ensures told { self.new ≡ record { tasks = longer self.old.room self.old.tasks task.now; room = self.old.room } }
    {
        if !self.is_told {
            return;
        }
        if self.tasks.len() < self.tasks.capacity() {
            self.tasks.push_reserved(*task);
        } else {
            self.is_told = false;
        }
    }

    fn leave(&mut self, _task: &TaskId) {}
}
