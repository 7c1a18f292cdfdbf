//! What was seen of a run.

ghost use Rattle.std.specs.Prelude.{◌≡◌, MatchOption, None, Some};
ghost use Rattle.sky_base.specs.ObjectView.{desc_view};
ghost use Rattle.sky_base.specs.declared.object.TaskId.{TaskId};
ghost use Rattle.ciel_look_tasks.specs.Known.{known_as, known_view, knowns, maker_as, makers, named_at};
ghost use Rattle.ciel_look_tasks.specs.Tasks.{same_task};

use crate::register::Register;
use crate::roll::Roll;
use ciel_look_told::header::Header;
use ciel_look_told::told::Outcome;
use ciel_look_words::known::Known;
use sky_base::name::Name;
use sky_base::object::TaskId;

/// How an order ended.
#[derive(Drop)]
pub enum How {
    /// As its report tells, with the names of the outputs that it made.
    Told { outcome: Outcome, made: Vec<Name> },
    /// With its worker, by the loss of this place.
    Lost { loss: usize },
}

/// The end of an order: its place among all that happened, how, and the names of the objects that it took along.
#[derive(Drop)]
pub struct End {
    pub at: usize,
    pub how: How,
    pub took: Vec<Name>,
}

/// An order: its number, its worker, the wait from which its task goes on, the task, its place, the place of its start among all that happened,
/// whether the task had been started from that wait before, and its end, none where it is still out.
#[derive(Drop)]
pub struct Run {
    pub number: u64,
    pub worker: u32,
    pub from: u32,
    pub id: TaskId,
    pub task: usize,
    pub begun: usize,
    pub again: bool,
    pub end: Option<End>,
}

/// A task: its description's place among those known, none for the root task and where none is known, and the places of its orders.
#[derive(Drop)]
pub struct Task {
    pub id: TaskId,
    pub known: Option<usize>,
    pub runs: Vec<usize>,
}

/// A loss: the worker, how many started tasks had been closed, its place among all that happened, the names of the objects that lay at no
/// other worker, the places of the tasks whose last stack lay there, and those of the orders that were out there.
#[derive(Drop)]
pub struct Loss {
    pub worker: u32,
    pub after: u64,
    pub at: usize,
    pub objects: Vec<Name>,
    pub stacks: Vec<usize>,
    pub runs: Vec<usize>,
}

/// A copy: the name of the object, the place of the order that took it along, and that of the one that had made it, if it is known.
#[derive(Clone, Copy)]
pub struct Copied {
    pub name: Name,
    pub run: usize,
    pub from: Option<usize>,
}

/// What happened, by places: an order began, or ended; a worker was lost.
#[derive(Clone, Copy)]
pub enum Happening {
    Begun(usize),
    Ended(usize),
    Lost(usize),
}

/// All that was seen of a run.
#[derive(Drop)]
pub struct Scene {
    pub header: Header,
    pub known: Register,
    pub roll: Roll,
    pub runs: Vec<Run>,
    pub losses: Vec<Loss>,
    pub copies: Vec<Copied>,
    pub happened: Vec<Happening>,
    /// How many reports came of orders that were out no longer.
    pub late: usize,
}

impl Scene {
    /// The description that is known under a name.
    pub fn find(&self, name: &Name) -> Option<&Known>
        ensures found { MatchOption result (known_as name.now (knowns self.now.known.all.items) ≡ None)
            (λ k. known_as name.now (knowns self.now.known.all.items) ≡ Some (desc_view k.now.desc)) }
        ensures maker { MatchOption result (maker_as name.now (makers self.now.known.all.items) ≡ None)
            (λ k. maker_as name.now (makers self.now.known.all.items) ≡ Some k.now.task) }
    {
        self.known.find(name)
    }

    /// The description of a task.
    pub fn desc_of(&self, task: &Task) -> Option<&Known>
        ensures known { MatchOption result (named_at self.now.known.all.items task.now.known ≡ None)
            (λ k. named_at self.now.known.all.items task.now.known ≡ Some (known_view k.now)) }
    {
        match task.known {
            Some(place) => self.known.all.get(place),
            None => None,
        }
    }
}

/// Whether the name is that of the task.
pub fn is_own(id: &TaskId, name: &Name) -> bool
    ensures { result ≡ same_task id.now (TaskId.Of name.now) }
{
    match id {
        TaskId::Show => false,
        TaskId::Of(own) => own == name,
    }
}
