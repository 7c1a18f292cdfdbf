// What the table of saved forms says of a node at a step.

ghost use Rattle.std.specs.Prelude.{◌≡◌, Some};
ghost use Rattle.sky_base_law.specs.Nodes.{node_at};
ghost use Rattle.sky_machine_numbers.specs.Filled.{node_view};
ghost use Rattle.sky_machine_numbers.specs.Standing.{HasNode};
ghost use Rattle.sky_state.specs.Table.{row};
ghost use Rattle.sky_frozen_fits.specs.Rows.{row_view, HasRow};

use crate::exprs::exp_row;
use crate::stmts::{block_row, stm_row};
use sky_base::stmt::Stmt;
use sky_machine_code::code::Code;
use sky_machine_numbers::node::NodeRef;

/// Which part of a form is pending or runs at a step, and what the form keeps there.
#[derive(Drop)]
pub enum RowAt<'a> {
    /// The part at this node is pending; so many values are kept.
    Pending { kept: u64, node: u32 },
    /// A block before its first statement: nothing runs.
    Before,
    /// This statement of a block runs.
    Ran { node: u32, stmt: &'a Stmt },
    /// The body of a `for`, at this node, runs; its list and the number of elements taken are kept.
    Turn { node: u32 },
    /// A `*` waits; its reference is kept.
    Star,
    /// An `exec` waits; the list of the references to its outputs is kept.
    Outputs,
    /// A call is open; nothing is kept.
    OpenCall,
    /// There is no such step.
    NoStep,
}

/// What the table says of the node of this number at a step.
pub fn row_at<'a>(code: &Code, number: u32, node: NodeRef<'a>, step: u32) -> RowAt<'a>
    requires { HasNode (λ i. node_at code.now i) (node_view node) number }
    ensures row { row_view result ≡ row (Some (node_view node.entry)) number step }
    ensures has { HasRow (λ i. node_at code.now i) result }
{
    match node {
        NodeRef::Exp(e) => exp_row(code, number, e, step),
        NodeRef::Stmt(s) => stm_row(code, number, s, step),
        NodeRef::Block(b) => block_row(code, number, b, step),
    }
}
