// How many signs, indices and calls a node has: as many as fit in memory, so that its steps can be numbered.

ghost use Rattle.std.specs.Prelude.{◌≡◌, length};
ghost use Rattle.sky_base.specs.TreeView.{exp_view};
ghost use Rattle.sky_base_law.specs.Nodes.{node_at};
ghost use Rattle.sky_base_law.specs.Opened.{HasExp};
ghost use Rattle.sky_machine_numbers.specs.Filled.{node_view};
ghost use Rattle.sky_machine_numbers.specs.Standing.{HasNode};
ghost use Rattle.sky_machine_restore.specs.Few.{Few, FewSteps};

use sky_base::tree::{Expr, SignAt, Step};
use sky_machine_code::code::Code;
use sky_machine_numbers::node::NodeRef;

/// The steps of a node are few.
pub fn few(code: &Code, number: u32, node: &NodeRef)
    requires { HasNode (λ i. node_at code.now i) (node_view node.now) number }
    ensures { Few (node_view node.now) }
{
    match node {
        NodeRef::Exp(e) => few_steps(code, number, e),
        NodeRef::Stmt(_) | NodeRef::Block(_) => {}
    }
}

fn few_steps(code: &Code, number: u32, e: &Expr)
    requires { HasExp (λ i. node_at code.now i) (exp_view e.now) number }
    ensures { FewSteps (exp_view e.now) }
{
    match e {
        Expr::Prefix { signs, .. } => {
            let _signs = how_many_signs(signs.as_slice());
        }
        Expr::Postfix { rest, .. } => {
            let _end = code.after(number);
            let _steps = how_many_steps(rest.as_slice());
        }
        _ => {}
    }
}

fn how_many_signs(signs: &[SignAt]) -> usize
    ensures { result ≡ length signs.now }
{
    signs.len()
}

fn how_many_steps(steps: &[Step]) -> usize
    ensures { result ≡ length steps.now }
{
    steps.len()
}
