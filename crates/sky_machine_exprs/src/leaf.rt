// The forms without parts, each visited at once.

ghost use Rattle.std.specs.Prelude.{◌≡◌, ◌≤◌, ℕ, List, IfOk};
ghost use Rattle.sky_base.specs.Kept.{Kept};
ghost use Rattle.sky_base.specs.View.{view};
ghost use Rattle.sky_base.specs.Tree.{Exp, Place};
ghost use Rattle.sky_base.specs.TreeView.{at, lit_view};
ghost use Rattle.sky_base.specs.Val.{Vals};
ghost use Rattle.sky_base.specs.Res.{visits, Fin};
ghost use Rattle.sky_base.specs.Eval.{World, eval};
ghost use Rattle.sky_base_scope.specs.Plain.{Pairs, Vars};
ghost use Rattle.sky_machine_entries.specs.Config.{Run};
ghost use Rattle.sky_machine_entries.specs.Entries.{end_of};
ghost use Rattle.sky_machine_entries.specs.Falls.{GoesIn};
ghost use Rattle.sky_machine_entries.specs.Ready.{EndReady};
ghost use Rattle.sky_machine_entries.specs.declared.entry.Entry.{Entry};
ghost use Rattle.sky_machine_entries.specs.declared.control.Control.{Control};

use sky_base::fault::FaultKind;
use sky_base::text::{Memory, Txt};
use sky_base::tree::Lit;
use sky_base::value::Value;
use sky_base_scope::funs::{closed, fun_named};
use sky_base_scope::ops;
use sky_base_scope::state::State;
use sky_machine_code::code::Code;
use sky_machine_entries::control::End;
use sky_machine_entries::visit::{failed, given, visit};
use std::alloc::Global;

/// A literal.
pub fn literal(state: &mut State, value: &Lit, line: u32, col: u32) -> Result<End, Memory>
    requires { state.old.count ≤ visits }
    ensures same { IfOk result (λ e. (w : World (List ℕ)) (body : List ℕ → Pairs → Vals (List ℕ) → Place → Vars → Run) (n : ℕ)
        → eval w body (Exp.literal (lit_view value.now) (at line col)) n state.old ≡ Fin (end_of e) state.new) }
    ensures ready { IfOk result EndReady }
    ensures falls { IfOk result (λ e. (n : ℕ) (es : List Entry) → GoesIn n state.old.count es state.new.count es (Control.End e)) }
{
    if !visit(state, line, col) {
        return Ok(failed(FaultKind::TooLong, line, col));
    }
    // A number keeps the limits, so no look at them is needed.
    if let Lit::Int(n) = value {
        return Ok(End::Got(Value::Int(*n)));
    }
    let end = given(ops::literal(value), line, col)?;
    Ok(end)
}

/// A name: the variable, else the function of that name, else Unknown.
pub fn name(
    alloc: Global,
    code: &Code,
    state: &mut State,
    name: &Txt,
    line: u32,
    col: u32,
) -> Result<End, Memory>
    requires { state.old.count ≤ visits }
    ensures same { IfOk result (λ e. (w : World (List ℕ)) (body : List ℕ → Pairs → Vals (List ℕ) → Place → Vars → Run) (n : ℕ) → w.script
        ≡ code.now → eval w body (Exp.name name.now (at line col)) n state.old ≡ Fin (end_of e) state.new) }
    ensures ready { IfOk result EndReady }
    ensures falls { IfOk result (λ e. (n : ℕ) (es : List Entry) → GoesIn n state.old.count es state.new.count es (Control.End e)) }
{
    if !visit(state, line, col) {
        return Ok(failed(FaultKind::TooLong, line, col));
    }
    let answer = match state.find(name)? {
        Some(v) => Ok(v),
        None => fun_named(alloc, code.program(), name),
    };
    let end = given(answer, line, col)?;
    Ok(end)
}

/// An anonymous function, which captures the variables that its body uses.
pub fn function(
    alloc: Global,
    code: &Code,
    state: &mut State,
    name: &Txt,
    line: u32,
    col: u32,
) -> Result<End, Memory>
    requires { state.old.count ≤ visits }
    ensures same { IfOk result (λ e. (w : World (List ℕ)) (body : List ℕ → Pairs → Vals (List ℕ) → Place → Vars → Run) (n : ℕ) → w.script
        ≡ code.now → eval w body (Exp.func name.now (at line col)) n state.old ≡ Fin (end_of e) state.new) }
    ensures ready { IfOk result EndReady }
    ensures falls { IfOk result (λ e. (n : ℕ) (es : List Entry) → GoesIn n state.old.count es state.new.count es (Control.End e)) }
{
    if !visit(state, line, col) {
        return Ok(failed(FaultKind::TooLong, line, col));
    }
    let end = given(closed(alloc, code.program(), state, name), line, col)?;
    Ok(end)
}
