// What a gate is.

ghost use Rattle.std.specs.Prelude.{◌≡◌, List, Option};
ghost use Rattle.ciel_gate.specs.Entered.{IsEntered};
ghost use Rattle.sky_base.specs.declared.object.TaskId.{TaskId};

use sky_base::object::TaskId;

/// What a worker enters before a task and leaves behind it. Neither takes memory.
pub trait Gate: Drop {
    // the tasks that were entered, in order, where the gate tells them
    ghost entered: { Self → Option (List TaskId) };

    /// A task begins. The list that the gate tells has the task as its last, or is no longer told.
    fn enter(&mut self, task: &TaskId)
        ensures entered { IsEntered (entered self.old) task.now (entered self.new) };

    /// A task has ended. The list stays.
    fn leave(&mut self, task: &TaskId)
        ensures same { entered self.new ≡ entered self.old };
}
