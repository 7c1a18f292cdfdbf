// An expression is begun.

ghost use Rattle.std.specs.Prelude.{◌≡◌, ◌≤◌, ◌<◌, ◌+◌, ◌*◌, ℕ, List, [], ◌∷◌, IfOk, length};
ghost use Rattle.sky_base.specs.Kept.{Kept};
ghost use Rattle.sky_base.specs.View.{view};
ghost use Rattle.sky_base.specs.TreeView.{exp_view};
ghost use Rattle.sky_base.specs.Res as logic;
ghost use Rattle.sky_base.specs.Res.{visits, others};
ghost use Rattle.sky_base.specs.Eval.{World, eval};
ghost use Rattle.sky_base_law.specs.Opened.{HasExp};
ghost use Rattle.sky_base_law.specs.Nodes.{node_at, pre_script};
ghost use Rattle.sky_base_scope.specs.Plain.{Vars};
ghost use Rattle.sky_machine_entries.specs.Config.{body_in, goes_on, rest_in, config, opened};
ghost use Rattle.sky_machine_entries.specs.Entries.{end_of, entry_of, forms};
ghost use Rattle.sky_machine_entries.specs.Falls.{GoesIn, GoesOut, to_do, work};
ghost use Rattle.sky_machine_entries.specs.Ready.{EndReady, Ready, AllReady, Goes};
ghost use Rattle.sky_machine_parts.specs.Made.{whole, RunsOn};

use ciel_name::name::Namer;
use sky_base::object::Named;
use sky_base::text::Memory;
use sky_base::tree::Expr;
use sky_base_scope::state::State;
use sky_machine_calls::postfix::begin_postfix;
use sky_machine_code::shape::{Shape, shape_of};
use sky_machine_entries::control::Control;
use sky_machine_entries::entry::Entry;
use sky_machine_exprs::ahead::begin_links;
use sky_machine_exprs::first::{begin_logic, begin_parens, begin_prefix};
use sky_machine_exprs::leaf::{function, literal, name};
use sky_machine_parts::made::Ground;
use sky_machine_parts::parts::begin_parts;

/// Begins an expression: a leaf is visited, and of any other form its first part is begun.
pub fn begin<'a, 'b, N: Namer>(
    ground: &Ground<'b, 'a, N>,
    state: &mut State,
    made: &mut Vec<Named>,
    entries: &mut Vec<Entry<'a>>,
    node: u32,
    e: &'a Expr,
) -> Result<Control<'a>, Memory>
    requires ready { AllReady ground.now.code.now entries.old.items }
    requires has { HasExp (λ i. node_at ground.now.code.now i) (exp_view e.now) node }
    requires within { state.old.count ≤ visits }
    ensures same { IfOk result (λ c. (w : World (List ℕ)) → RunsOn w ground.now.code.now (N.digest ground.now.namer.now)
        → whole (N.digest ground.now.namer.now) made.new.items (config w entries.new.items c state.new)
        ≡ whole (N.digest ground.now.namer.now) made.old.items
        (rest_in w entries.old.items (eval w (body_in w (forms entries.old.items)) (exp_view e.entry.now) node state.old))) }
    ensures ready { IfOk result (λ c. AllReady ground.now.code.now entries.new.items) }
    ensures goes { IfOk result (λ c. Goes ground.now.code.now c) }
    ensures opened { IfOk result (λ c. opened (forms entries.new.items) ≡ opened (forms entries.old.items)) }
    ensures falls { IfOk result (λ c. GoesIn node state.old.count entries.old.items state.new.count entries.new.items c) }
{
    let code = ground.code;
    match shape_of(e) {
        Shape::Literal { value, line, col } => {
            Ok(Control::End(literal(state, value, line, col)?))
        }
        Shape::Name {
            name: of,
            line,
            col,
        } => Ok(Control::End(name(ground.alloc, code, state, of, line, col)?)),
        Shape::Function { name, line, col } => Ok(Control::End(function(
            ground.alloc,
            code,
            state,
            name,
            line,
            col,
        )?)),
        Shape::Parens { inner } => {
            let control = begin_parens(code, entries, node, inner)?;
            Ok(control)
        }
        Shape::Parts {
            form,
            line,
            col,
            parts,
        } => {
            let control = begin_parts(ground, state, made, entries, node, form, line, col, parts)?;
            Ok(control)
        }
        Shape::Chain { first, rest } => {
            let control = begin_links(ground.alloc, code, state, entries, node, first, rest)?;
            Ok(control)
        }
        Shape::Logic { stop, first, rest } => {
            let control = begin_logic(code, entries, node, stop, first, rest)?;
            Ok(control)
        }
        Shape::Prefix { signs, operand } => {
            let control = begin_prefix(code, entries, node, signs, operand)?;
            Ok(control)
        }
        Shape::Postfix { first, rest } => {
            let control = begin_postfix(code, entries, node, first, rest)?;
            Ok(control)
        }
    }
}
