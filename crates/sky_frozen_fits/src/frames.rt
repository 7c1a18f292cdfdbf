// Whether the entries of a frame stand on its body, and how the last one ends it.

ghost use Rattle.std.specs.Prelude.{◌≡◌, IsTrue, IsFalse, Some, None, MatchOption};
ghost use Rattle.sky_base.specs.Eval.{body_of};
ghost use Rattle.sky_state.specs.Table.{IsOpenCall, IsWaiting};
ghost use Rattle.sky_state.specs.Fits.{OnBody, Last, row_of};
ghost use Rattle.sky_state.specs.StandView.{todos_view, stack_view};
ghost use Rattle.sky_frozen_fits.specs.Rows.{row_view};
ghost use Rattle.sky_frozen_fits.specs.Entered.{FitTogether, last_row};

use crate::entries::entered;
use crate::kinds::{is_open_call, is_waiting};
use crate::row::{RowAt, row_at};
use sky_base::text::Txt;
use sky_base::value::Value;
use sky_machine_code::code::Code;
use sky_machine_numbers::nodes::Nodes;
use sky_state::frame::Todo;

/// Whether the bottom entry is the block of the function's body.
pub fn on_body(code: &Code, fun: &Txt, todos: &[Todo]) -> bool
    ensures yes { IsTrue result → OnBody code.now (body_of fun.now code.now) (todos_view todos.now) }
    ensures no { IsFalse result → OnBody code.now (body_of fun.now code.now) (todos_view todos.now) → ⊥ }
{
    let Some(body) = code.body(fun) else {
        return false;
    };
    match todos.first() {
        None => false,
        Some(todo) => todo.node == body.node,
    }
}

/// Whether the entries of a frame fit together with the values on its stack: each is a step that the table has, each further one a
/// part of the one below, and the values are as many as they keep and of the kinds that the table names.
pub fn entries_fit(code: &Code, nodes: &Nodes, todos: &[Todo], values: &[Value]) -> bool
    requires { nodes.now ≡ code.now }
    ensures yes { IsTrue result → FitTogether code.now (todos_view todos.now) (stack_view values.now) }
    ensures no { IsFalse result → FitTogether code.now (todos_view todos.now) (stack_view values.now) → ⊥ }
{
    entered(code, nodes, todos, values)
}

/// Whether the last entry is an open call.
pub fn ends_in_call(code: &Code, nodes: &Nodes, todos: &[Todo]) -> bool
    requires { nodes.now ≡ code.now }
    ensures yes { IsTrue result → Last (λ t. IsOpenCall (row_of code.now t)) (todos_view todos.now) }
    ensures no { IsFalse result → Last (λ t. IsOpenCall (row_of code.now t)) (todos_view todos.now) → ⊥ }
{
    match last_row(code, nodes, todos) {
        None => false,
        Some(row) => is_open_call(&row),
    }
}

/// Whether the last entry waits.
pub fn ends_in_wait(code: &Code, nodes: &Nodes, todos: &[Todo]) -> bool
    requires { nodes.now ≡ code.now }
    ensures yes { IsTrue result → Last (λ t. IsWaiting (row_of code.now t)) (todos_view todos.now) }
    ensures no { IsFalse result → Last (λ t. IsWaiting (row_of code.now t)) (todos_view todos.now) → ⊥ }
{
    match last_row(code, nodes, todos) {
        None => false,
        Some(row) => is_waiting(&row),
    }
}

// What the table says of the last entry, if there is one.
fn last_row<'a>(code: &Code, nodes: &Nodes<'a>, todos: &[Todo]) -> Option<RowAt<'a>>
    requires { nodes.now ≡ code.now }
    ensures { MatchOption result (last_row code.now (todos_view todos.now) ≡ None)
        (λ r. last_row code.now (todos_view todos.now) ≡ Some (row_view r)) }
{
    let Some(last) = todos.last() else {
        return None;
    };
    match nodes.at(last.node) {
        None => Some(RowAt::NoStep),
        Some(node) => Some(row_at(code, last.node, node, last.step)),
    }
}
