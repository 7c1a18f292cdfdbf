//! The tasks of a run, in the order in which they were first started.

ghost use Rattle.std.specs.Prelude.{◌≡◌, [], ◌∷◌, ◌++◌, ℕ, List, IfOk, None, Some, set, slice_get};
ghost use Rattle.std.specs.BTreeMap.{get};
ghost use Rattle.sky_base.specs.NameOrder.{name_cmp};
ghost use Rattle.sky_base.specs.declared.object.TaskId.{TaskId};
ghost use Rattle.ciel_look_tasks.specs.Heads.{with_heading};
ghost use Rattle.ciel_look_tasks.specs.Rows.{Filed, with_row};
ghost use Rattle.ciel_look_tasks.specs.Tasks.{place_in, with_task};
ghost use Rattle.ciel_look_tasks.specs.View.{heading_view, headings, ids, row_filed, rows};

use crate::places::push;
use crate::scene::Task;
use sky_base::name::Name;
use sky_base::object::TaskId;
use sky_base::text::Memory;
use std::alloc::Global;
use std::collections::BTreeMap;

/// The tasks, and the place of each.
#[derive(Drop)]
pub struct Roll {
    pub tasks: Vec<Task>,
    pub show: Option<usize>,
    pub others: BTreeMap<Name, usize>,
    ghost root_found: { show ≡ place_in TaskId.Show (ids tasks.items) },
    ghost found: { (n : List ℕ) → get name_cmp others n ≡ place_in (TaskId.Of n) (ids tasks.items) },
}

impl Roll {
    /// No tasks.
    pub fn new(alloc: Global) -> Roll
        ensures tasks { ids result.tasks.items ≡ [] }
        ensures rows { rows result.tasks.items ≡ [] }
        ensures headings { headings result.tasks.items ≡ [] }
    {
        Roll {
            tasks: Vec::new(alloc),
            show: None,
            others: BTreeMap::new(alloc),
        }
    }

    /// The place of a task.
    pub fn place(&self, id: &TaskId) -> Option<usize>
        ensures place { result ≡ place_in id.now (ids self.now.tasks.items) }
    {
        match id {
            TaskId::Show => self.show,
            TaskId::Of(name) => self.others.get(name).copied(),
        }
    }

    /// The place of a task, which is a new one where it has none.
    pub fn enter(
        &mut self,
        alloc: Global,
        id: &TaskId,
        known: Option<usize>,
    ) -> Result<usize, Memory>
        ensures tasks { IfOk result (λ _. ids self.new.tasks.items ≡ with_task (ids self.old.tasks.items) id.now) }
        ensures rows { IfOk result (λ _. rows self.new.tasks.items ≡ with_row (rows self.old.tasks.items) id.now) }
        ensures headings { IfOk result (λ _. headings self.new.tasks.items ≡ with_heading (headings self.old.tasks.items) id.now known) }
        ensures place { IfOk result (λ p. place_in id.now (ids self.new.tasks.items) ≡ Some p) }
    {
        match self.place(id) {
            Some(place) => Ok(place),
            None => {
                let place = self.tasks.len();
                self.add(Task {
                    id: *id,
                    known,
                    runs: Vec::new(alloc),
                })?;
                Ok(place)
            }
        }
    }

    /// One more task.
    fn add(&mut self, task: Task) -> Result<(), Memory>
        requires new { place_in task.id (ids self.old.tasks.items) ≡ None }
        ensures tasks { IfOk result (λ _. ids self.new.tasks.items ≡ ids self.old.tasks.items ++ task.id ∷ []) }
        ensures rows { IfOk result (λ _. rows self.new.tasks.items ≡ rows self.old.tasks.items ++ row_filed task ∷ []) }
        ensures headings { IfOk result (λ _. headings self.new.tasks.items ≡ headings self.old.tasks.items ++ heading_view task ∷ []) }
    {
        let place = self.tasks.len();
        let id = task.id;
        push(&mut self.tasks, task)?;
        match id {
            TaskId::Show => {
                self.show = Some(place);
                Ok(())
            }
            TaskId::Of(name) => match self.others.insert(name, place) {
                Ok(_) => Ok(()),
                Err(_) => {
                    self.tasks.pop();
                    Err(Memory)
                }
            },
        }
    }

    /// One more order of the task at a place.
    pub fn note(&mut self, place: usize, run: usize) -> Result<(), Memory>
        ensures tasks { ids self.new.tasks.items ≡ ids self.old.tasks.items }
        ensures headings { headings self.new.tasks.items ≡ headings self.old.tasks.items }
        ensures rows { IfOk result (λ _. (x : Filed) → slice_get (rows self.old.tasks.items) place ≡ Some x
            → rows self.new.tasks.items ≡ set (rows self.old.tasks.items) place (x.0, x.1 ++ run ∷ [])) }
    {
        match self.tasks.get_mut(place) {
            Some(task) => {
                push(&mut task.runs, run)?;
                Ok(())
            }
            None => Ok(()),
        }
    }
}
