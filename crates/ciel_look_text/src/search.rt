//! The search for the needs that lead from the result to a task.

ghost use Rattle.std.specs.Prelude.{◌≡◌, [], ◌∷◌, ◌++◌, ℕ, suc, List, IfOk, MatchOption, None, Some, length, reverse, slice_get};
ghost use Rattle.std.specs.BTreeMap.{get};
ghost use Rattle.sky_base.specs.NameOrder.{name_cmp};
ghost use Rattle.sky_base.specs.declared.object.TaskId.{TaskId};
ghost use Rattle.ciel_look_tasks.specs.SceneView.{scene_view};
ghost use Rattle.ciel_look_text.specs.Chains.{IsSearched};
ghost use Rattle.ciel_look_text.specs.Now.{waits_for};
ghost use Rattle.ciel_look_text.specs.Replays.{stand_of};
ghost use Rattle.ciel_look_text.specs.Steps.{named_from, started_as, step_place, target, with_names, with_step, with_target};
ghost use Rattle.ciel_look_text.specs.Why.{Chain, Shortest};

use crate::replay::{Replay, push};
use ciel_look_tasks::scene::Scene;
use sky_base::name::Name;
use sky_base::object::TaskId;
use sky_base::text::Memory;
use std::alloc::Global;
use std::collections::BTreeMap;

/// A step of the search: by a name to the task that makes it, from the step at a place, none from the root task.
#[derive(Clone, Copy)]
pub struct Step {
    pub name: Name,
    pub to: Name,
    pub from: Option<usize>,
}

/// The steps, each to a task that was not reached before, and the place of each task's.
#[derive(Drop)]
struct Steps {
    all: Vec<Step>,
    at: BTreeMap<Name, usize>,
    ghost found: { (n : List ℕ) → get name_cmp at n ≡ step_place n all.items },
}

/// The fewest names by which the result needs the task of this name, one after another; none where it doesn't.
///
/// Answers `Memory` for want of memory.
pub fn chain_to(
    alloc: Global,
    scene: &Scene,
    replay: &Replay,
    name: &Name,
) -> Result<Option<Vec<Name>>, Memory>
    ensures chain { IfOk result (λ found. MatchOption found
        ((names : List (List ℕ)) → Chain (scene_view scene.now) (stand_of scene.now replay.now) TaskId.Show names (TaskId.Of name.now) → ⊥)
        (λ names. Shortest (scene_view scene.now) (stand_of scene.now replay.now) names.items (TaskId.Of name.now))) }
{
    let steps = search(alloc, scene, replay)?;
    match steps.place(name) {
        Some(place) => {
            let names = steps.names_to(alloc, place)?;
            Ok(Some(names))
        }
        None => Ok(None),
    }
}

/// All tasks that the result needs, each reached once.
fn search(alloc: Global, scene: &Scene, replay: &Replay) -> Result<Steps, Memory>
    ensures searched { IfOk result (λ steps. IsSearched (scene_view scene.now) (stand_of scene.now replay.now) (length steps.all.items)
        steps.all.items) }
{
    let mut steps = Steps::new(alloc);
    steps.expand(alloc, scene, replay, None, &TaskId::Show)?;
    for i in 0..usize::MAX {
        let Some(step) = steps.step_at(i) else {
            return Ok(steps);
        };
        steps.expand(alloc, scene, replay, Some(i), &TaskId::Of(step.to))?;
    }
    Ok(steps)
}

impl Steps {
    /// No steps.
    fn new(alloc: Global) -> Steps
        ensures none { result.all.items ≡ [] }
    {
        Steps {
            all: Vec::new(alloc),
            at: BTreeMap::new(alloc),
        }
    }

    /// The place of the step to a task.
    fn place(&self, name: &Name) -> Option<usize>
        ensures place { result ≡ step_place name.now self.now.all.items }
    {
        self.at.get(name).copied()
    }

    /// The step at a place.
    fn step_at(&self, place: usize) -> Option<Step>
        ensures { result ≡ slice_get self.now.all.items place }
    {
        self.all.get(place).copied()
    }

    /// Steps from a task, which was reached at a place, by the names that it waits for.
    fn expand(
        &mut self,
        alloc: Global,
        scene: &Scene,
        replay: &Replay,
        from: Option<usize>,
        id: &TaskId,
    ) -> Result<(), Memory>
        ensures steps { IfOk result (λ _. self.new.all.items ≡ with_names (scene_view scene.now) (stand_of scene.now replay.now) from
            (waits_for (scene_view scene.now) (stand_of scene.now replay.now) id.now) self.old.all.items) }
    {
        let names = replay.needs(alloc, scene, id)?;
        self.follow_all(scene, replay, from, names.as_slice())?;
        Ok(())
    }

    /// Steps by these names.
    fn follow_all(
        &mut self,
        scene: &Scene,
        replay: &Replay,
        from: Option<usize>,
        names: &[Name],
    ) -> Result<(), Memory>
        ensures steps { IfOk result (λ _. self.new.all.items
            ≡ with_names (scene_view scene.now) (stand_of scene.now replay.now) from names.now self.old.all.items) }
    {
        for name in names {
            self.follow(scene, replay, from, name)?;
        }
        Ok(())
    }

    /// A step by a name, where it leads to a task that was not reached before.
    fn follow(
        &mut self,
        scene: &Scene,
        replay: &Replay,
        from: Option<usize>,
        name: &Name,
    ) -> Result<(), Memory>
        ensures steps { IfOk result (λ _. self.new.all.items ≡ with_target from name.now self.old.all.items
            (target (scene_view scene.now) (stand_of scene.now replay.now) name.now)) }
    {
        match target(scene, replay, name) {
            Some(to) => {
                self.reach(Step {
                    name: *name,
                    to,
                    from,
                })?;
                Ok(())
            }
            None => Ok(()),
        }
    }

    /// One more step, unless its task was reached before.
    fn reach(&mut self, step: Step) -> Result<(), Memory>
        ensures steps { IfOk result (λ _. self.new.all.items ≡ with_step self.old.all.items step) }
    {
        match self.place(&step.to) {
            Some(_) => Ok(()),
            None => {
                self.add(step)?;
                Ok(())
            }
        }
    }

    /// One more step, to a task that was not reached before.
    fn add(&mut self, step: Step) -> Result<(), Memory>
        requires new { step_place step.to self.old.all.items ≡ None }
        ensures steps { IfOk result (λ _. self.new.all.items ≡ self.old.all.items ++ step ∷ []) }
    {
        let place = self.all.len();
        let to = step.to;
        push(&mut self.all, step)?;
        match self.at.insert(to, place) {
            Ok(_) => Ok(()),
            Err(_) => {
                self.all.pop();
                Err(Memory)
            }
        }
    }

    /// The names that lead to the step at a place, one after another.
    fn names_to(&self, alloc: Global, place: usize) -> Result<Vec<Name>, Memory>
        ensures names { IfOk result (λ names. names.items ≡ reverse (named_from (length self.now.all.items) self.now.all.items (Some place))) }
    {
        let mut names = names_from(alloc, self.all.as_slice(), place)?;
        names.reverse();
        Ok(names)
    }
}

/// The names that lead to the step at a place, the last one first.
fn names_from(alloc: Global, steps: &[Step], place: usize) -> Result<Vec<Name>, Memory>
    ensures names { IfOk result (λ names. names.items ≡ named_from (length steps.now) steps.now (Some place)) }
{
    let mut names = Vec::new(alloc);
    let mut at = Some(place);
    for _step in 0..steps.len() {
        at = put_name(&mut names, steps, at)?;
    }
    Ok(names)
}

/// One more name, that of the step at a place; the place of the one before it.
fn put_name(
    names: &mut Vec<Name>,
    steps: &[Step],
    at: Option<usize>,
) -> Result<Option<usize>, Memory>
    ensures put { IfOk result (λ next. (most : ℕ) → names.new.items ++ named_from most steps.now next
        ≡ names.old.items ++ named_from (suc most) steps.now at) }
{
    let Some(place) = at else {
        return Ok(None);
    };
    match steps.get(place) {
        Some(step) => {
            push(names, step.name)?;
            Ok(step.from)
        }
        None => Ok(None),
    }
}

/// The task that a name leads to: it makes an object that isn't there, and was started at some time.
fn target(scene: &Scene, replay: &Replay, name: &Name) -> Option<Name>
    ensures { result ≡ target (scene_view scene.now) (stand_of scene.now replay.now) name.now }
{
    if replay.is_there(scene, name) {
        return None;
    }
    match scene.find(name) {
        Some(known) => started(scene, &known.task),
        None => None,
    }
}

/// The name of a task, where it was started and isn't the root task.
fn started(scene: &Scene, id: &TaskId) -> Option<Name>
    ensures { result ≡ started_as (scene_view scene.now).rows id.now }
{
    match id {
        TaskId::Show => None,
        TaskId::Of(name) => match scene.roll.place(id) {
            Some(_) => Some(*name),
            None => None,
        },
    }
}
