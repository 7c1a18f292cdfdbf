// Blocks, opened at a step.

ghost use Rattle.std.specs.Prelude.{◌≡◌, ◌+◌, Some};
ghost use Rattle.sky_base_law.specs.Nodes.{node_at};
ghost use Rattle.sky_base_law.specs.Opened.{block_node, HasStms, opened};
ghost use Rattle.std.specs.Prelude.{[], None};
ghost use Rattle.sky_machine_entries.specs.Entries.{entry_of};

use sky_base::stmt::{Block, Stmt};
use sky_machine_code::code::Code;
use sky_machine_entries::entry::{BlockAt, Entry, InBlock};

/// The block at a step: so many of its statements have begun, and the next is the one after them. Past its end there is none. It takes
/// constant time, however long the block is.
pub fn open_block<'a>(code: &Code, node: u32, block: &'a Block, step: u32) -> Entry<'a>
    requires here { node_at code.now node ≡ Some (block_node block.now) }
    requires has { HasStms (λ i. node_at code.now i) block.now (node + 1) }
    ensures { opened (block_node block.now) node step [] None ≡ Some (entry_of result) }
{
    let stmts = block.as_slice();
    let begins = code.begins(node, block);
    let at = step as usize;
    let (next, rest): (u32, &'a [Stmt]) = match begins.get(at) {
        Some(next) => (*next, &stmts[at..]),
        None => (code.after_block(node, block), &[]),
    };
    Entry::Block(InBlock::Block(BlockAt {
        node,
        step: at,
        next,
        rest,
    }))
}
