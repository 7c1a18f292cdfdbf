// The table of the nodes' ends: a node's place is taken when it begins, and filled when all that is in it is numbered.

ghost use Rattle.std.specs.Prelude.{◌≡◌, ◌<◌, ◌^◌, IfOk, length};
ghost use Rattle.sky_machine_numbers.specs.Filled.{begun, ended};

use sky_base::text::Memory;

/// A node begins: its end isn't known yet. Gives the place of its end.
pub fn begin(ends: &mut Vec<u32>) -> Result<usize, Memory>
    ensures ends { IfOk result (λ _. ends.new.items ≡ begun ends.old.items) }
    ensures place { IfOk result (λ at. at ≡ length ends.old.items) }
{
    let at = ends.len();
    match ends.push(0) {
        Ok(()) => Ok(at),
        Err(_) => Err(Memory),
    }
}

/// All that is in a node is numbered: the node ends.
pub fn end(ends: &mut Vec<u32>, at: usize)
    requires at { at < length ends.old.items }
    requires fits { length ends.old.items < 2 ^ 32 }
    ensures { ends.new.items ≡ ended ends.old.items at }
{
    let after = ends.len() as u32;
    ends[at] = after;
}
