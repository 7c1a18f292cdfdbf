// Expressions, opened at a step.

ghost use Rattle.std.specs.Prelude.{◌≡◌, IfOk, IfSome};
ghost use Rattle.std.specs.Option.{option_map};
ghost use Rattle.sky_base.specs.TreeView.{exp_view};
ghost use Rattle.sky_base_law.specs.Nodes.{node_at};
ghost use Rattle.sky_base_law.specs.Opened.{HasExp, opened_exp};
ghost use Rattle.sky_base_scope.specs.RunView.{KeptPairs};
ghost use Rattle.sky_machine_entries.specs.Entries.{entry_of};
ghost use Rattle.sky_state.specs.StandView.{stack_view};
ghost use Rattle.sky_machine_open.specs.Spots.{call_of};

use crate::chain::{open_chain, open_logic};
use crate::first::at_first;
use crate::parts::open_parts;
use crate::postfix::{Caller, open_postfix};
use crate::signs::open_prefix;
use sky_base::text::Memory;
use sky_base::tree::Expr;
use sky_base::value::Value;
use sky_machine_code::code::Code;
use sky_machine_code::shape::{Shape, shape_of};
use sky_machine_entries::entry::{Entry, InForm, Parens};
use std::alloc::Global;

/// The form that was saved at this step of an expression with these values, if there is one. An open call is taken up with what
/// its caller has.
///
/// Answers `Memory` for want of memory.
pub fn open_exp<'a>(
    alloc: Global,
    code: &Code,
    node: u32,
    e: &'a Expr,
    step: u32,
    kept: &[Value],
    call: Option<Caller>,
) -> Result<Option<Entry<'a>>, Memory>
    requires has { HasExp (λ i. node_at code.now i) (exp_view e.now) node }
    requires caller { IfSome call (λ c. KeptPairs c.vars.now) }
    ensures { IfOk result (λ o. option_map entry_of o ≡ opened_exp (exp_view e.now) node step (stack_view kept.now) (call_of call.entry)) }
{
    match shape_of(e) {
        Shape::Literal { .. } | Shape::Name { .. } | Shape::Function { .. } => Ok(None),
        Shape::Parens { .. } => Ok(at_first(
            step,
            kept,
            Entry::Form(InForm::Parens(Parens { node })),
        )),
        Shape::Parts {
            form,
            line,
            col,
            parts,
        } => {
            let entry = open_parts(alloc, code, node, form, line, col, parts, step, kept)?;
            Ok(entry)
        }
        Shape::Chain { first, rest } => {
            let entry = open_chain(code, node, first, rest, step, kept)?;
            Ok(entry)
        }
        Shape::Logic { stop, first, rest } => {
            Ok(open_logic(code, node, stop, first, rest, step, kept))
        }
        Shape::Prefix { signs, .. } => Ok(open_prefix(node, signs, step, kept)),
        Shape::Postfix { first, rest } => {
            let entry = open_postfix(alloc, code, node, first, rest, step, kept, call)?;
            Ok(entry)
        }
    }
}
