//! The gates at the end: those of idle workers, and between them those that come back with an output.

ghost use Rattle.std.specs.Prelude.{◌≡◌, ◌<◌, ◌≤◌, ◌++◌, [], None, Some, MatchOption, length, option_to_list, vec_capacity};
ghost use Rattle.ciel_crew_work.specs.Crewed.{gathered};

use crate::performing::{Done, Tools};
use ciel_gate::gate::Gate;

/// The gates in order of workers, in the room made for them.
pub fn gather<G: Gate>(
    idle: Vec<Option<Tools<G>>>,
    done: Vec<(u32, Done<G>)>,
    room: Vec<G>,
) -> Vec<G>
    requires empty { room.items ≡ [] }
    requires room { length idle.items ≤ vec_capacity room }
    ensures gates { result.items ≡ gathered idle.items done.items }
{
    let mut gates = room;
    let mut outs = done.into_iter();
    for tools in idle {
        let gate = match tools {
            Some(tools) => Some(gate_of(tools)),
            None => last_gate(outs.next()),
        };
        keep(&mut gates, gate);
    }
    gates
}

/// The gate, without the eye.
pub fn gate_of<G: Gate>(tools: Tools<G>) -> G
    ensures gate { result ≡ tools.gate }
{
    let Tools { gate, .. } = tools;
    gate
}

/// The gate that comes back with this output, if there is one.
pub fn last_gate<G: Gate>(out: Option<(u32, Done<G>)>) -> Option<G>
    ensures gate { MatchOption out (result ≡ None) (λ d. result ≡ Some d.1.tools.gate) }
{
    let (_, done) = out?;
    let Done { tools, .. } = done;
    Some(gate_of(tools))
}

/// Puts a gate behind the others, if there is one, in the room made for it.
pub fn keep<G: Gate>(gates: &mut Vec<G>, gate: Option<G>)
    requires room { length gates.old.items < vec_capacity gates.old }
    ensures capacity { vec_capacity gates.new ≡ vec_capacity gates.old }
    ensures items { gates.new.items ≡ gates.old.items ++ option_to_list gate }
{
    if let Some(gate) = gate {
        gates.push_reserved(gate);
    }
}
