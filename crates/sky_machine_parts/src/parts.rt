// The parts of a form, one after the other.

ghost use Rattle.std.specs.Prelude.{◌≡◌, ◌≤◌, ◌<◌, ◌+◌, ◌*◌, ℕ, List, IfOk, length};
ghost use Rattle.sky_base.specs.Kept.{Kept};
ghost use Rattle.sky_base.specs.View.{view};
ghost use Rattle.sky_base.specs.TreeView.{at};
ghost use Rattle.sky_base.specs.Res as logic;
ghost use Rattle.sky_base.specs.Res.{visits};
ghost use Rattle.sky_base.specs.Eval.{World, eval, eval_parts};
ghost use Rattle.sky_base.specs.Tree.{Exp};
ghost use Rattle.sky_base_law.specs.Opened.{HasExp, HasExps};
ghost use Rattle.sky_base_law.specs.Nodes.{node_at};
ghost use Rattle.sky_base_scope.specs.Plain.{Vars, items};
ghost use Rattle.sky_base_scope.specs.RunView.{KeptVals};
ghost use Rattle.sky_machine_code.specs.Shapes.{form_view, rest_view};
ghost use Rattle.sky_machine_entries.specs.Config.{body_in, goes_on, rest_in, config, opened};
ghost use Rattle.sky_machine_entries.specs.Entries.{end_of, entry_of, forms};
ghost use Rattle.sky_machine_entries.specs.Falls.{GoesIn, GoesOut, load};
ghost use Rattle.sky_machine_entries.specs.declared.control.End.{End};
ghost use Rattle.sky_machine_entries.specs.Ready.{EndReady, Ready, AllReady, Goes};
ghost use Rattle.sky_machine_parts.specs.Made.{whole, RunsOn};

use crate::formed::formed;
use crate::made::Ground;
use ciel_name::name::Namer;
use sky_base::fault::FaultKind;
use sky_base::object::Named;
use sky_base::text::Memory;
use sky_base::value::{Vals, Value};
use sky_base_scope::state::State;
use sky_machine_code::shape::{PartForm, Rest, next_part};
use sky_machine_entries::control::{Control, fail};
use sky_machine_entries::entry::{Entry, InForm, Part};
use sky_machine_entries::list::push;
use sky_machine_entries::visit::visit;

/// A form with parts: its first part is begun, or it is visited.
pub fn begin_parts<'a, N: Namer>(
    ground: &Ground<N>,
    state: &mut State,
    made: &mut Vec<Named>,
    entries: &mut Vec<Entry<'a>>,
    node: u32,
    form: PartForm,
    line: u32,
    col: u32,
    parts: Rest<'a>,
) -> Result<Control<'a>, Memory>
    requires ready { AllReady ground.now.code.now entries.old.items }
    requires has { HasExp (λ i. node_at ground.now.code.now i) (Exp.parts (form_view form) (at line col) (rest_view parts)) node }
    requires within { state.old.count ≤ visits }
    ensures same { IfOk result (λ c. (w : World (List ℕ)) → RunsOn w ground.now.code.now (N.digest ground.now.namer.now)
        → whole (N.digest ground.now.namer.now) made.new.items (config w entries.new.items c state.new)
        ≡ whole (N.digest ground.now.namer.now) made.old.items
        (rest_in w entries.old.items (eval w (body_in w (forms entries.old.items))
        (Exp.parts (form_view form) (at line col) (rest_view parts.entry)) node state.old))) }
    ensures ready { IfOk result (λ c. AllReady ground.now.code.now entries.new.items) }
    ensures goes { IfOk result (λ c. Goes ground.now.code.now c) }
    ensures opened { IfOk result (λ c. opened (forms entries.new.items) ≡ opened (forms entries.old.items)) }
    ensures falls { IfOk result (λ c. GoesIn node state.old.count entries.old.items state.new.count entries.new.items c) }
{
    let next = ground.code.inside(node);
    let values = Vals::new(ground.alloc);
    let control = more_parts(
        ground,
        state,
        made,
        entries,
        Part {
            node,
            step: 1,
            next,
            form,
            line,
            col,
            values,
            rest: parts,
        },
    )?;
    Ok(control)
}

/// The parts of a form that are left.
pub fn more_parts<'a, N: Namer>(
    ground: &Ground<N>,
    state: &mut State,
    made: &mut Vec<Named>,
    entries: &mut Vec<Entry<'a>>,
    part: Part<'a>,
) -> Result<Control<'a>, Memory>
    requires ready { AllReady ground.now.code.now entries.old.items }
    requires step { part.step ≤ part.next }
    requires has { HasExps (λ i. node_at ground.now.code.now i) (rest_view part.rest) part.next }
    requires kept { KeptVals part.values }
    requires within { state.old.count ≤ visits }
    ensures same { IfOk result (λ c. (w : World (List ℕ)) → RunsOn w ground.now.code.now (N.digest ground.now.namer.now)
        → whole (N.digest ground.now.namer.now) made.new.items (config w entries.new.items c state.new)
        ≡ whole (N.digest ground.now.namer.now) made.old.items
        (rest_in w entries.old.items (eval_parts w (body_in w (forms entries.old.items)) (rest_view part.entry.rest) part.entry.node
        part.entry.step part.entry.next (form_view part.entry.form) (at part.entry.line part.entry.col) (items part.entry.values) state.old))) }
    ensures ready { IfOk result (λ c. AllReady ground.now.code.now entries.new.items) }
    ensures goes { IfOk result (λ c. Goes ground.now.code.now c) }
    ensures opened { IfOk result (λ c. opened (forms entries.new.items) ≡ opened (forms entries.old.items)) }
    ensures falls { IfOk result (λ c. GoesOut End.Goes state.old.count entries.old.items state.new.count entries.new.items c) }
    ensures goes_in { part.entry.node < part.entry.next
        → IfOk result (λ c. GoesIn part.entry.node state.old.count entries.old.items state.new.count entries.new.items c) }
{
    let Part {
        node,
        step,
        next,
        form,
        line,
        col,
        values,
        rest,
    } = part;
    match next_part(rest) {
        None => {
            if !visit(state, line, col) {
                return Ok(fail(FaultKind::TooLong, line, col));
            }
            let control = formed(ground, made, entries, form, values, node, line, col)?;
            Ok(control)
        }
        Some(first) => {
            let after = ground.code.after_exp(next, first.part);
            push(
                entries,
                Entry::Form(InForm::Part(Part {
                    node,
                    step,
                    next: after,
                    form,
                    line,
                    col,
                    values,
                    rest: first.rest,
                })),
            )?;
            Ok(Control::Begin(next, first.part))
        }
    }
}

/// A form goes on with the value of a part.
pub fn got_part<'a, N: Namer>(
    ground: &Ground<N>,
    state: &mut State,
    made: &mut Vec<Named>,
    entries: &mut Vec<Entry<'a>>,
    part: Part<'a>,
    v: Value,
) -> Result<Control<'a>, Memory>
    requires ready { AllReady ground.now.code.now entries.old.items }
    requires entry { Ready ground.now.code.now (entry_of (Entry.Form (InForm.Part part))) }
    requires kept { Kept (view v) }
    requires within { state.old.count ≤ visits }
    ensures same { IfOk result (λ c. (w : World (List ℕ)) → RunsOn w ground.now.code.now (N.digest ground.now.namer.now)
        → whole (N.digest ground.now.namer.now) made.new.items (config w entries.new.items c state.new)
        ≡ whole (N.digest ground.now.namer.now) made.old.items
        (rest_in w entries.old.items (goes_on w (forms entries.old.items) (entry_of (Entry.Form (InForm.Part part.entry)))
        (logic.End.got (view v)) state.old))) }
    ensures ready { IfOk result (λ c. AllReady ground.now.code.now entries.new.items) }
    ensures goes { IfOk result (λ c. Goes ground.now.code.now c) }
    ensures opened { IfOk result (λ c. opened (forms entries.new.items) ≡ opened (forms entries.old.items)) }
    ensures falls { IfOk result (λ c. GoesOut (End.Got v) state.old.count entries.old.items state.new.count entries.new.items c) }
{
    let Part {
        node,
        step,
        next,
        form,
        line,
        col,
        mut values,
        rest,
    } = part;
    values.push(v)?;
    let control = more_parts(
        ground,
        state,
        made,
        entries,
        Part {
            node,
            step: step + 1,
            next,
            form,
            line,
            col,
            values,
            rest,
        },
    )?;
    Ok(control)
}
