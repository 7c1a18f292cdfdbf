// Whether the entries of a frame fit with the values on its stack.

ghost use Rattle.std.specs.Prelude.{◌≡◌, IsTrue, IsFalse, IfSome, IfNone, drop, length};
ghost use Rattle.sky_state.specs.Table as table;
ghost use Rattle.sky_state.specs.Fits.{row_of};
ghost use Rattle.sky_state.specs.StandView.{todo_view, todos_view, stack_view};
ghost use Rattle.sky_base_law.specs.Nodes.{node_at};
ghost use Rattle.sky_frozen_fits.specs.Rows.{row_view, HasRow};
ghost use Rattle.sky_frozen_fits.specs.Entered.{NextIn, FirstFits, Entered};

use crate::kinds::{is_step, kept, of_kinds};
use crate::places::runs_at;
use crate::row::{RowAt, row_at};
use sky_base::value::Value;
use sky_machine_code::code::Code;
use sky_machine_numbers::nodes::Nodes;
use sky_state::frame::Todo;

/// Whether these entries fit, one after the other, each with the first of the values that are left.
pub fn entered(code: &Code, nodes: &Nodes, todos: &[Todo], values: &[Value]) -> bool
    requires { nodes.now ≡ code.now }
    ensures yes { IsTrue result → Entered code.now (todos_view todos.now) (stack_view values.now) }
    ensures no { IsFalse result → Entered code.now (todos_view todos.now) (stack_view values.now) → ⊥ }
{
    let mut rest = todos;
    let mut left = values;
    while let Some((todo, further)) = rest.split_first() {
        let Some(own) = first_fits(code, nodes, todo, further, left) else {
            return false;
        };
        let (_, others) = left.split_at(own);
        left = others;
        rest = further;
    }
    left.is_empty()
}

// How many values the entry keeps, where it fits: there is such a step, the next entry is a part of it, and its values are there
// and of the kinds that its row names.
fn first_fits(
    code: &Code,
    nodes: &Nodes,
    todo: &Todo,
    further: &[Todo],
    values: &[Value],
) -> Option<usize>
    requires { nodes.now ≡ code.now }
    ensures some { IfSome result (λ n. n ≡ table.keeps (row_of code.now (todo_view todo.now))) }
    ensures fits { IfSome result (λ n. FirstFits code.now (todo_view todo.now) (todos_view further.now) (stack_view values.now)) }
    ensures none { IfNone result (FirstFits code.now (todo_view todo.now) (todos_view further.now) (stack_view values.now) → ⊥) }
{
    let Some(node) = nodes.at(todo.node) else {
        return None;
    };
    let row = row_at(code, todo.node, node, todo.step);
    if !is_step(&row) {
        return None;
    }
    if !next_runs(code, &row, further) {
        return None;
    }
    let own = kept(&row);
    if own > values.len() as u64 {
        return None;
    }
    let own = own as usize;
    if !of_kinds(&row, &values[..own]) {
        return None;
    }
    Some(own)
}

// The next entry, if there is one, is a part that is pending or running.
fn next_runs(code: &Code, row: &RowAt, further: &[Todo]) -> bool
    requires { HasRow (λ i. node_at code.now i) row.now }
    ensures yes { IsTrue result → NextIn code.now (row_view row.now) (todos_view further.now) }
    ensures no { IsFalse result → NextIn code.now (row_view row.now) (todos_view further.now) → ⊥ }
{
    match further.first() {
        None => true,
        Some(next) => runs_at(code, row, next.node),
    }
}
