// How many values of a stack belong to a saved entry.

ghost use Rattle.std.specs.Prelude.{◌≡◌, Some};
ghost use Rattle.sky_base.specs.Tree.{Exp};
ghost use Rattle.sky_base.specs.TreeView.{at, exp_view, steps_view};
ghost use Rattle.sky_base.specs.StmtView.{stm_view};
ghost use Rattle.sky_base_law.specs.Nodes.{node_at};
ghost use Rattle.sky_base_law.specs.Opened.{HasExp};
ghost use Rattle.sky_machine_code.specs.Shapes.{form_view, rest_view};
ghost use Rattle.sky_machine_numbers.specs.Filled.{node_view};
ghost use Rattle.sky_machine_numbers.specs.Standing.{HasNode};
ghost use Rattle.sky_state.specs.Table as table;
ghost use Rattle.sky_state.specs.Table.{row, exp_row, stm_row, IsStep};
ghost use Rattle.sky_machine_restore.specs.Kept.{kept_after};

use sky_base::stmt::Stmt;
use sky_base::tree::{Expr, Step};
use sky_machine_code::code::Code;
use sky_machine_code::shape::{PartForm, Rest, Shape, next_part, shape_of};
use sky_machine_numbers::node::NodeRef;
use sky_machine_open::parts::skip_parts;

/// How many values belong to the entry of a node at one of its steps.
pub fn keeps(code: &Code, number: u32, node: &NodeRef, step: u32) -> usize
    requires { HasNode (λ i. node_at code.now i) (node_view node.now) number }
    ensures { IsStep (row (Some (node_view node.now)) number step) → result ≡ table.keeps (row (Some (node_view node.now)) number step) }
{
    match node {
        NodeRef::Exp(e) => exp_keeps(code, number, e, step),
        NodeRef::Stmt(s) => stm_keeps(number, s, step),
        NodeRef::Block(_) => 0,
    }
}

fn exp_keeps(code: &Code, number: u32, e: &Expr, step: u32) -> usize
    requires { HasExp (λ i. node_at code.now i) (exp_view e.now) number }
    ensures { IsStep (exp_row (exp_view e.now) number step) → result ≡ table.keeps (exp_row (exp_view e.now) number step) }
{
    match shape_of(e) {
        Shape::Literal { .. } | Shape::Name { .. } | Shape::Function { .. } => 0,
        Shape::Parens { .. } | Shape::Logic { .. } => 0,
        Shape::Parts {
            form,
            line,
            col,
            parts,
        } => parts_keep(code, number, form, line, col, parts, step),
        Shape::Chain { .. } | Shape::Prefix { .. } => { if step == 1 { 0 } else { 1 } }
        Shape::Postfix { rest, .. } => {
            if step < 2 {
                0
            } else {
                spot_keeps(rest, step as usize - 2)
            }
        }
    }
}

// The values of the parts before; when all parts are there, one list.
fn parts_keep(
    code: &Code,
    number: u32,
    form: PartForm,
    line: u32,
    col: u32,
    parts: Rest,
    step: u32,
) -> usize
    requires { HasExp (λ i. node_at code.now i) (Exp.parts (form_view form) (at line col) (rest_view parts)) number }
    ensures { IsStep (exp_row (Exp.parts (form_view form) (at line col) (rest_view parts.entry)) number step) → result
        ≡ table.keeps (exp_row (Exp.parts (form_view form) (at line col) (rest_view parts.entry)) number step) }
{
    if step == 0 {
        return 0;
    }
    let place = skip_parts(code, code.inside(number), parts, step - 1);
    match next_part(place.rest) {
        Some(_) => step as usize - 1,
        None => 1,
    }
}

// The place after so many: at an index the value so far is kept, at an argument also those before it, and while a call is open
// nothing.
fn spot_keeps(steps: &[Step], count: usize) -> usize
    ensures { result ≡ kept_after (steps_view steps.now) count }
{
    let mut left = count;
    for step in steps {
        match step {
            Step::Index { .. } => {
                if left == 0 {
                    return 1;
                }
                left -= 1;
            }
            Step::Call { args, .. } => {
                let args = args.as_slice().len();
                if left < args {
                    return 1 + left;
                }
                if left == args {
                    return 0;
                }
                left -= args + 1;
            }
        }
    }
    0
}

fn stm_keeps(number: u32, s: &Stmt, step: u32) -> usize
    ensures { IsStep (stm_row (stm_view s.now) number step) → result ≡ table.keeps (stm_row (stm_view s.now) number step) }
{
    match s {
        Stmt::Put { .. } => { if step == 2 { 1 } else { 0 } }
        Stmt::For { .. } => { if step == 2 { 2 } else { 0 } }
        _ => 0,
    }
}
