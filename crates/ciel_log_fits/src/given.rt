//! Whether what a report tells of what its order brings along is so: what was copied, and something that was missing.

ghost use Rattle.std.specs.Prelude.{◌≡◌, ℕ, List, IfOk, IsFalse, IsTrue, MatchOption, Some, map};
ghost use Rattle.std.specs.List.{IsDistinct};
ghost use Rattle.sky_base.specs.Val.{same_text};
ghost use Rattle.ciel_journal.specs.Job.{Each};
ghost use Rattle.ciel_master_board.specs.Board.{shelf, spot_of};
ghost use Rattle.ciel_master_board.specs.Sound.{own_name};
ghost use Rattle.ciel_master_safe.specs.Reports.{CanWait};
ghost use Rattle.ciel_table.specs.Inside.{IsIndex};
ghost use Rattle.ciel_task_inputs.specs.Lies.{held_name};
ghost use Rattle.ciel_task_order.specs.Views.{brought_view};
ghost use Rattle.ciel_log_fits.specs.Given.{IsBroughtFrom, IsElsewhere, IsGivenAt, IsNowhere, IsStackAt, worker_of};

use ciel_store::shelves::Place;
use ciel_task_inputs::index::{find, index};
use ciel_task_order::block::{Block, Held, Spot};
use ciel_task_order::order::Order;
use sky_base::name::Name;
use sky_base::object::{Desc1, TaskId};
use sky_base::text::Memory;
use std::alloc::Global;
use std::collections::{BTreeMap, BTreeSet};

/// Whether the order gives each of these names a place at another worker.
///
/// Answers `Memory` for want of memory.
pub fn are_elsewhere(alloc: Global, order: &Order, names: &[Name]) -> Result<bool, Memory>
    ensures yes { IfOk result (λ b. IsTrue b → Each (IsElsewhere order.now) names.now) }
    ensures no { IfOk result (λ b. IsFalse b → Each (IsElsewhere order.now) names.now → ⊥) }
{
    let places = index(alloc, order.inputs.as_slice())?;
    Ok(all_elsewhere(order, &places, names))
}

/// So, by the places of the names.
fn all_elsewhere(order: &Order, places: &BTreeMap<Name, usize>, names: &[Name]) -> bool
    requires { IsIndex held_name places.now order.now.inputs.items }
    ensures yes { IsTrue result → Each (IsElsewhere order.now) names.now }
    ensures no { IsFalse result → Each (IsElsewhere order.now) names.now → ⊥ }
{
    for name in names {
        if !is_elsewhere(order, places, name) {
            return false;
        }
    }
    true
}

/// Whether the order gives the name a place at another worker.
fn is_elsewhere(order: &Order, places: &BTreeMap<Name, usize>, name: &Name) -> bool
    requires { IsIndex held_name places.now order.now.inputs.items }
    ensures yes { IsTrue result → IsElsewhere order.now name.now }
    ensures no { IsFalse result → IsElsewhere order.now name.now → ⊥ }
{
    match place_of(order.inputs.as_slice(), places, name) {
        Some(place) => place.worker() != order.worker,
        None => false,
    }
}

/// The place of the object of a name; an input of the job has none.
fn place_of<'a>(
    inputs: &'a [Held],
    places: &BTreeMap<Name, usize>,
    name: &Name,
) -> Option<&'a Place<Block>>
    requires { IsIndex held_name places.now inputs.now }
    ensures { MatchOption result (IsNowhere (spot_of name.now (map brought_view inputs.now)))
        (λ p. spot_of name.now (map brought_view inputs.now) ≡ Some (shelf p.now)) }
{
    match find(inputs, places, name) {
        Some(held) => match &held.at {
            Spot::Shelf(place) => Some(place),
            Spot::Input(_) => None,
        },
        None => None,
    }
}

/// Whether no name stands twice.
///
/// Answers `Memory` for want of memory.
pub fn are_distinct(alloc: Global, names: &[Name]) -> Result<bool, Memory>
    ensures yes { IfOk result (λ b. IsTrue b → IsDistinct same_text names.now) }
    ensures no { IfOk result (λ b. IsFalse b → IsDistinct same_text names.now → ⊥) }
{
    let mut behind = BTreeSet::new(alloc);
    let mut i = names.len();
    while i > 0 {
        i -= 1;
        match behind.insert(names[i]) {
            Ok(true) => {}
            Ok(false) => return Ok(false),
            Err(_) => return Err(Memory),
        }
    }
    Ok(true)
}

/// Whether the place that the order gives for a name, or for its stack by the name that stands for its task, is at this worker.
///
/// Answers `Memory` for want of memory.
pub fn is_given_at(alloc: Global, order: &Order, name: &Name, worker: u32) -> Result<bool, Memory>
    ensures yes { IfOk result (λ b. IsTrue b → (digest : List ℕ → List ℕ) → IsGivenAt digest order.now name.now worker) }
    ensures no { IfOk result (λ b. IsFalse b → (digest : List ℕ → List ℕ) → IsGivenAt digest order.now name.now worker → ⊥) }
{
    let places = index(alloc, order.inputs.as_slice())?;
    if brings_from(order, &places, name, worker) {
        return Ok(true);
    }
    Ok(has_stack_at(order, name, worker))
}

/// Whether the order gives the name a place at this worker.
fn brings_from(order: &Order, places: &BTreeMap<Name, usize>, name: &Name, worker: u32) -> bool
    requires { IsIndex held_name places.now order.now.inputs.items }
    ensures yes { IsTrue result → IsBroughtFrom order.now name.now worker }
    ensures no { IsFalse result → IsBroughtFrom order.now name.now worker → ⊥ }
{
    match place_of(order.inputs.as_slice(), places, name) {
        Some(place) => place.worker() == worker,
        None => false,
    }
}

/// Whether the order's stack is at this worker, and the name stands for its task.
fn has_stack_at(order: &Order, name: &Name, worker: u32) -> bool
    ensures yes { IsTrue result → (digest : List ℕ → List ℕ) → IsStackAt digest order.now name.now worker }
    ensures no { IsFalse result → (digest : List ℕ → List ℕ) → IsStackAt digest order.now name.now worker → ⊥ }
{
    match &order.saved {
        Some(place) => place.worker() == worker && *name == own_name(order),
        None => false,
    }
}

/// The name that stands for an order's task: of the root task that of the main call.
fn own_name(order: &Order) -> Name
    ensures name { (digest : List ℕ → List ℕ) → result ≡ own_name digest worker_of order.now.main order.now.task }
{
    match &order.task {
        TaskId::Show => order.main,
        TaskId::Of(name) => *name,
    }
}

/// Whether a task may wait: the root task, or that of a call.
pub fn can_wait(task: &TaskId, desc: &Option<Desc1>) -> bool
    ensures yes { IsTrue result → CanWait task.now desc.now }
    ensures no { IsFalse result → CanWait task.now desc.now → ⊥ }
{
    match (task, desc) {
        (TaskId::Show, _) => true,
        (TaskId::Of(_), Some(Desc1::Call { .. })) => true,
        _ => false,
    }
}
