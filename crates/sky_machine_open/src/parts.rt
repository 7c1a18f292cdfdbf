// Forms with parts, at the part that is pending, and an `exec` that waits.

ghost use Rattle.std.specs.Prelude.{◌≡◌, ◌+◌, IfOk};
ghost use Rattle.std.specs.Option.{option_map};
ghost use Rattle.sky_base.specs.Tree.{Exp};
ghost use Rattle.sky_base.specs.TreeView.{at};
ghost use Rattle.sky_base.specs.Names.{known_of};
ghost use Rattle.sky_base.specs.View.{vals_of};
ghost use Rattle.sky_base_law.specs.Nodes.{node_at};
ghost use Rattle.sky_base_law.specs.Opened as saved;
ghost use Rattle.sky_base_law.specs.Opened.{HasExp, HasExps, times, descs_of, exec_open, form_open};
ghost use Rattle.sky_base_scope.specs.Plain.{items};
ghost use Rattle.sky_machine_code.specs.Shapes.{form_view, rest_view};
ghost use Rattle.sky_machine_entries.specs.Entries.{entry_of};
ghost use Rattle.sky_state.specs.StandView.{stack_view};

use sky_base::names::Names;
use sky_base::text::Memory;
use sky_base::value::{Vals, Value};
use sky_machine_code::code::Code;
use sky_machine_code::shape::{PartForm, Rest, next_part};
use sky_machine_entries::entry::{Entry, ExecWait, InForm, Part};
use std::alloc::Global;

/// The parts of a form that are left, with the node of the first of them.
#[derive(Drop)]
pub struct PartsAt<'a> {
    pub next: u32,
    pub rest: Rest<'a>,
}

/// What is left after so many parts; nothing is left where there are no more.
pub fn skip_parts<'a>(code: &Code, first: u32, parts: Rest<'a>, count: u32) -> PartsAt<'a>
    requires { HasExps (λ i. node_at code.now i) (rest_view parts) first }
    ensures place { times saved.next_part count (first, rest_view parts.entry) ≡ (result.next, rest_view result.rest) }
    ensures has { HasExps (λ i. node_at code.now i) (rest_view result.rest) result.next }
{
    let mut next = first;
    let mut rest = parts;
    for _passed in 0..count {
        let Some(part) = next_part(rest) else {
            rest = Rest::Nothing;
            break;
        };
        next = code.after_exp(next, part.part);
        rest = part.rest;
    }
    PartsAt { next, rest }
}

/// A form with parts, at this step with these values.
///
/// Answers `Memory` for want of memory.
pub fn open_parts<'a>(
    alloc: Global,
    code: &Code,
    node: u32,
    form: PartForm,
    line: u32,
    col: u32,
    parts: Rest<'a>,
    step: u32,
    kept: &[Value],
) -> Result<Option<Entry<'a>>, Memory>
    requires { HasExp (λ i. node_at code.now i) (Exp.parts (form_view form) (at line col) (rest_view parts)) node }
    ensures { IfOk result (λ o. option_map entry_of o
        ≡ form_open (form_view form) (at line col) (rest_view parts.entry) node step (stack_view kept.now)) }
{
    if step == 0 {
        return Ok(None);
    }
    let place = skip_parts(code, code.inside(node), parts, step - 1);
    match next_part(place.rest) {
        None => {
            let entry = open_exec(alloc, node, form, kept)?;
            Ok(entry)
        }
        Some(part) => {
            let next = code.after_exp(place.next, part.part);
            let values = copies(alloc, kept)?;
            Ok(Some(Entry::Form(InForm::Part(Part {
                node,
                step: step as usize,
                next,
                form,
                line,
                col,
                values,
                rest: part.rest,
            }))))
        }
    }
}

/// A list of these values; each copy takes constant time.
pub fn copies(alloc: Global, kept: &[Value]) -> Result<Vals, Memory>
    ensures { IfOk result (λ vs. items vs ≡ stack_view kept.now) }
{
    let mut values = Vals::new(alloc);
    for value in kept {
        values.push(value.copy()?)?;
    }
    Ok(values)
}

// An `exec` whose parts are all there: it waits, and keeps the list of the references to its outputs.
fn open_exec<'a>(
    alloc: Global,
    node: u32,
    form: PartForm,
    kept: &[Value],
) -> Result<Option<Entry<'a>>, Memory>
    ensures { IfOk result (λ o. option_map entry_of o ≡ exec_open (form_view form) node (stack_view kept.now)) }
{
    if form != PartForm::Exec {
        return Ok(None);
    }
    let [value] = kept else {
        return Ok(None);
    };
    let Value::List(list) = value else {
        return Ok(None);
    };
    let Some(names) = names_of(alloc, list.as_slice())? else {
        return Ok(None);
    };
    Ok(Some(Entry::Form(InForm::ExecWait(ExecWait { node, names }))))
}

// The names in these values, where each is a reference.
fn names_of(alloc: Global, values: &[Value]) -> Result<Option<Names>, Memory>
    ensures { IfOk result (λ o. option_map known_of o ≡ descs_of (vals_of values.now)) }
{
    let mut names = Names::new(alloc);
    for value in values {
        let Value::Ref(name) = value else {
            return Ok(None);
        };
        names.push(*name)?;
    }
    Ok(Some(names))
}
