// The nodes directly in each node, found from the nodes' ends: the first of them comes after the node itself, and each other
// where the one before it ends.

ghost use Rattle.std.specs.Prelude.{◌≡◌, ◌<◌, ◌+◌, [], IfOk, length, slice_index};
ghost use Rattle.sky_machine_code.specs.Parts.{Parted};
ghost use Rattle.sky_machine_numbers.specs.Listed.{Listed};

use sky_base::text::Memory;

/// Lists the parts of every node by their numbers, with the place where those of each begin.
pub fn list_parts(ends: &[u32], firsts: &mut Vec<usize>, parts: &mut Vec<u32>) -> Result<(), Memory>
    requires { firsts.old.items ≡ [] }
    ensures { IfOk result (λ _. Parted ends.now firsts.new.items parts.new.items) }
{
    for node in 0..ends.len() {
        let Ok(()) = firsts.push(parts.len()) else {
            return Err(Memory);
        };
        list_parts_of(ends, node, parts)?;
    }
    Ok(())
}

// The parts of one node.
fn list_parts_of(ends: &[u32], node: usize, parts: &mut Vec<u32>) -> Result<(), Memory>
    requires { node < length ends.now }
    ensures { IfOk result (λ _. Listed ends.now parts.old.items parts.new.items (node + 1) (slice_index ends.now node)) }
{
    let end = end_of(ends, node) as usize;
    let mut at = node + 1;
    while at < end {
        let next = end_of(ends, at) as usize;
        if next <= at {
            break;
        }
        let Ok(()) = parts.push(at as u32) else {
            return Err(Memory);
        };
        at = next;
    }
    Ok(())
}

// The end of a node, or 0 past the last one.
fn end_of(ends: &[u32], node: usize) -> u32
    ensures { result ≡ slice_index ends.now node }
{
    ends.get(node).copied().unwrap_or(0)
}
