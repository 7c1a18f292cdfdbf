// The forms of an operator's answer, each visited after its parts.

ghost use Rattle.std.specs.Prelude.{List, IfOk};
ghost use Rattle.sky_base.specs.Kept.{Kept};
ghost use Rattle.sky_base.specs.Val.{list, no_pairs};
ghost use Rattle.sky_base.specs.View.{view};
ghost use Rattle.sky_base.specs.Op as op;
ghost use Rattle.sky_base.specs.Eval as run;
ghost use Rattle.sky_base.specs.TreeView.{at, lit_view, order_view};
ghost use Rattle.sky_base_known.specs.Walk.{Row};
ghost use Rattle.sky_base_scope.specs.Plain as plain;
ghost use Rattle.sky_base_scope.specs.RunView.{Comes, given};

use crate::forms::{give, give_exact};
use sky_base::op::limited;
use sky_base::tree::{Cmp, Lit};
use sky_base::value::{Vals, Value};
use sky_base_scope::cut::Cut;
use sky_base_scope::ops::{compared, dictionary, has, keys, len, literal, range};
use sky_base_scope::state::State;
use std::alloc::Global;

/// A literal, visited.
pub fn literal_given(state: &mut State, value: &Lit, line: u32, col: u32) -> Result<Value, Cut>
    ensures answer { (rows : List Row) → Comes result rows state.new
        (given (op.limited (run.lit_val (lit_view value.now))) (at line col) rows state.old) }
    ensures kept { IfOk result (λ v. Kept (view v)) }
{
    give(state, literal(value), line, col)
}

/// The list of values, visited.
pub fn list_given(state: &mut State, vs: Vals, line: u32, col: u32) -> Result<Value, Cut>
    ensures answer { (rows : List Row) → Comes result rows state.new (given (op.limited (list vs)) (at line col) rows state.old) }
    ensures kept { IfOk result (λ v. Kept (view v)) }
{
    give_exact(state, limited(Value::List(vs)), line, col)
}

/// The dictionary of keys and values in turn, visited.
pub fn dict_given(
    state: &mut State,
    alloc: Global,
    parts: &Vals,
    line: u32,
    col: u32,
) -> Result<Value, Cut>
    ensures answer { (rows : List Row) → Comes result rows state.new
        (given (op.dict_from (plain.items parts.now) no_pairs) (at line col) rows state.old) }
    ensures kept { IfOk result (λ v. Kept (view v)) }
{
    give(state, dictionary(alloc, parts), line, col)
}

/// A comparison, visited.
pub fn compared_given(
    state: &mut State,
    how: Cmp,
    a: &Value,
    b: &Value,
    line: u32,
    col: u32,
) -> Result<Value, Cut>
    ensures answer { (rows : List Row) → Comes result rows state.new
        (given (op.compare (order_view how) (view a.now) (view b.now)) (at line col) rows state.old) }
    ensures kept { IfOk result (λ v. Kept (view v)) }
{
    give_exact(state, compared(how, a, b), line, col)
}

/// A length, visited.
pub fn len_given(state: &mut State, v: &Value, line: u32, col: u32) -> Result<Value, Cut>
    requires { Kept (view v.now) }
    ensures answer { (rows : List Row) → Comes result rows state.new (given (op.len (view v.now)) (at line col) rows state.old) }
    ensures kept { IfOk result (λ v. Kept (view v)) }
{
    give_exact(state, len(v), line, col)
}

/// The keys of a dictionary, visited.
pub fn keys_given(
    state: &mut State,
    alloc: Global,
    v: &Value,
    line: u32,
    col: u32,
) -> Result<Value, Cut>
    ensures answer { (rows : List Row) → Comes result rows state.new (given (op.keys (view v.now)) (at line col) rows state.old) }
    ensures kept { IfOk result (λ v. Kept (view v)) }
{
    give(state, keys(alloc, v), line, col)
}

/// Whether a dictionary has a key, visited.
pub fn has_given(
    state: &mut State,
    dict: &Value,
    key: &Value,
    line: u32,
    col: u32,
) -> Result<Value, Cut>
    ensures answer { (rows : List Row) → Comes result rows state.new (given (op.has (view dict.now) (view key.now)) (at line col) rows state.old) }
    ensures kept { IfOk result (λ v. Kept (view v)) }
{
    give_exact(state, has(dict, key), line, col)
}

/// Numbers in turn, visited.
pub fn range_given(
    state: &mut State,
    alloc: Global,
    from: &Value,
    to: &Value,
    line: u32,
    col: u32,
) -> Result<Value, Cut>
    ensures answer { (rows : List Row) → Comes result rows state.new (given (op.range (view from.now) (view to.now)) (at line col) rows state.old) }
    ensures kept { IfOk result (λ v. Kept (view v)) }
{
    give(state, range(alloc, from, to), line, col)
}
