// A node of a script, opened at a step.

ghost use Rattle.std.specs.Prelude.{◌≡◌, IfOk, IfSome};
ghost use Rattle.std.specs.Option.{option_map};
ghost use Rattle.sky_base_law.specs.Nodes.{node_at};
ghost use Rattle.sky_base_law.specs.Opened.{opened};
ghost use Rattle.sky_machine_numbers.specs.Filled.{node_view};
ghost use Rattle.sky_machine_numbers.specs.Standing.{HasNode};
ghost use Rattle.sky_base_scope.specs.RunView.{KeptPairs};
ghost use Rattle.sky_machine_entries.specs.Entries.{entry_of};
ghost use Rattle.sky_state.specs.StandView.{stack_view};
ghost use Rattle.sky_machine_open.specs.Spots.{call_of};

use crate::block::open_block;
use crate::expr::open_exp;
use crate::postfix::Caller;
use crate::stmt::open_stmt;
use sky_base::text::Memory;
use sky_base::value::Value;
use sky_machine_code::code::Code;
use sky_machine_entries::entry::Entry;
use sky_machine_numbers::node::NodeRef;
use std::alloc::Global;

/// The form that was saved at this step of the node of this number with these values, if there is one. An open call is taken up
/// with what its caller has.
///
/// Answers `Memory` for want of memory.
pub fn open_node<'a>(
    alloc: Global,
    code: &Code,
    number: u32,
    node: NodeRef<'a>,
    step: u32,
    kept: &[Value],
    call: Option<Caller>,
) -> Result<Option<Entry<'a>>, Memory>
    requires has { HasNode (λ i. node_at code.now i) (node_view node) number }
    requires caller { IfSome call (λ c. KeptPairs c.vars.now) }
    ensures { IfOk result (λ o. option_map entry_of o ≡ opened (node_view node.entry) number step (stack_view kept.now) (call_of call.entry)) }
{
    match node {
        NodeRef::Exp(e) => {
            let entry = open_exp(alloc, code, number, e, step, kept, call)?;
            Ok(entry)
        }
        NodeRef::Stmt(s) => {
            let entry = open_stmt(code, number, s, step, kept)?;
            Ok(entry)
        }
        NodeRef::Block(b) => Ok(Some(open_block(code, number, b, step))),
    }
}
