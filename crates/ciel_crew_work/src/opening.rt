//! What a crew begins with: room, and each gate with its eye.

ghost use Rattle.std.specs.Prelude.{◌≡◌, ◌≤◌, [], IfOk, length, vec_capacity};
ghost use Rattle.ciel_crew_work.specs.Crewed.{tools_of};

use crate::performing::Tools;
use ciel_gate::gate::Gate;
use ciel_store::seats::Eye;
use sky_base::text::Memory;
use std::alloc::Global;

/// Room for so many of them.
///
/// Answers `Memory` for want of memory.
pub fn room_for<T>(alloc: Global, many: usize) -> Result<Vec<T>, Memory>
    ensures empty { IfOk result (λ room. room.items ≡ []) }
    ensures room { IfOk result (λ room. many ≤ vec_capacity room) }
{
    match Vec::with_capacity(alloc, many) {
        Ok(room) => Ok(room),
        Err(_) => Err(Memory),
    }
}

/// Each gate with its eye, in the room made for them.
pub fn equipped<G: Gate>(
    room: Vec<Option<Tools<G>>>,
    gates: Vec<G>,
    eyes: Vec<Eye>,
) -> Vec<Option<Tools<G>>>
    requires empty { room.items ≡ [] }
    requires room { length gates.items ≤ vec_capacity room }
    requires eyes { length eyes.items ≡ length gates.items }
    ensures tools { result.items ≡ tools_of gates.items eyes.items }
{
    let mut tools = room;
    let mut eyes = eyes.into_iter();
    for gate in gates {
        match eyes.next() {
            Some(eye) => tools.push_reserved(Some(Tools { gate, eye })),
            None => unreachable!(),
        }
    }
    tools
}
