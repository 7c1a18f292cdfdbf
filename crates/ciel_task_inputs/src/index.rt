//! What an order brings along, found by names with no search through all of it.

ghost use Rattle.std.specs.Prelude.{◌≡◌, None, Some, IfOk, MatchOption};
ghost use Rattle.ciel_table.specs.Inside.{IsIndex};
ghost use Rattle.ciel_table.specs.Named.{found};
ghost use Rattle.ciel_task_inputs.specs.Lies.{held_name};
ghost use Rattle.ciel_task_inputs.specs.Index.{Added};

use ciel_task_order::block::Held;
use sky_base::name::Name;
use sky_base::text::Memory;
use std::alloc::Global;
use std::collections::BTreeMap;

/// The place of each name in the list, that of the first one where a name stands twice.
///
/// Answers `Memory` for want of memory.
pub fn index(alloc: Global, held: &[Held]) -> Result<BTreeMap<Name, usize>, Memory>
    ensures index { IfOk result (λ m. IsIndex held_name m held.now) }
{
    let mut index = BTreeMap::new(alloc);
    for (place, one) in held.iter().enumerate() {
        add(&mut index, &one.name, place)?;
    }
    Ok(index)
}

// Puts the place of a name, where it has none so far.
fn add(index: &mut BTreeMap<Name, usize>, name: &Name, place: usize) -> Result<(), Memory>
    ensures { IfOk result (λ _. Added index.old name.now place index.new) }
{
    if index.contains_key(name) {
        return Ok(());
    }
    match index.insert(*name, place) {
        Ok(_) => Ok(()),
        Err(_) => Err(Memory),
    }
}

/// The first of the list that has this name. It takes no memory.
pub fn find<'a>(held: &'a [Held], index: &BTreeMap<Name, usize>, name: &Name) -> Option<&'a Held>
    requires { IsIndex held_name index.now held.now }
    ensures found { MatchOption result (found held_name name.now held.now ≡ None) (λ h. found held_name name.now held.now ≡ Some h.now) }
{
    match index.get(name) {
        Some(place) => match held.get(*place) {
            Some(one) => Some(one),
            None => None,
        },
        None => None,
    }
}
