// Whether values are sound.

ghost use Rattle.std.specs.Prelude.{IsTrue, IsFalse};
ghost use Rattle.sky_base.specs.Eval.{find_fun};
ghost use Rattle.sky_base.specs.Kept.{Kept};
ghost use Rattle.sky_base.specs.View.{view, vals_of, pairs_of};
ghost use Rattle.sky_base_law.specs.Sound.{RefsSound, ValsSound, PairsSound, TakesIf, Sound, SoundVars};
ghost use Rattle.sky_base_law.specs.Tasks.{Each};
ghost use Rattle.sky_state.specs.StandView.{stack_view};

use crate::captures::Captures;
use crate::keys::all_in;
use sky_base::text::Txt;
use sky_base::value::{Pair, Pairs, Value};

/// Whether a value is sound: it keeps the limits, and each function in it is one of the script and captured only what it uses. A
/// name that it refers to may be any.
pub fn is_sound(captures: &Captures, value: &Value) -> bool
    ensures yes { IsTrue result → Sound captures.now (view value.now) }
    ensures no { IsFalse result → Sound captures.now (view value.now) → ⊥ }
{
    is_kept(value) && functions_fit(captures, value)
}

/// Whether each variable is sound.
pub fn vars_are_sound(captures: &Captures, vars: &[Pair]) -> bool
    ensures yes { IsTrue result → SoundVars captures.now (pairs_of vars.now) }
    ensures no { IsFalse result → SoundVars captures.now (pairs_of vars.now) → ⊥ }
{
    for var in vars {
        if !is_sound(captures, &var.value) {
            return false;
        }
    }
    true
}

/// Whether each value is sound.
pub fn values_are_sound(captures: &Captures, values: &[Value]) -> bool
    ensures yes { IsTrue result → Each (Sound captures.now) (stack_view values.now) }
    ensures no { IsFalse result → Each (Sound captures.now) (stack_view values.now) → ⊥ }
{
    for value in values {
        if !is_sound(captures, value) {
            return false;
        }
    }
    true
}

// Whether a value keeps the limits of depth and size.
fn is_kept(value: &Value) -> bool
    ensures yes { IsTrue result → Kept (view value.now) }
    ensures no { IsFalse result → Kept (view value.now) → ⊥ }
{
    !value.is_too_deep() && !value.is_too_large()
}

// Whether each function in the value is one of the script and captured only what it uses.
#[cycle(functions)]
fn functions_fit(captures: &Captures, value: &Value) -> bool
    ensures yes { IsTrue result → RefsSound captures.now (view value.now) }
    ensures no { IsFalse result → RefsSound captures.now (view value.now) → ⊥ }
{
    match value {
        Value::List(items) => all_functions_fit(captures, items.as_slice()),
        Value::Dict(pairs) => functions_in_fit(captures, pairs.as_slice()),
        Value::Fun { name, caught } => {
            takes(captures, name, caught) && functions_in_fit(captures, caught.as_slice())
        }
        Value::Null | Value::Bool(_) | Value::Int(_) | Value::Text(_) | Value::Ref(_) => true,
    }
}

#[cycle(functions)]
#[tactic(auto, using(sky_base::proofs::Values::inside))]
fn all_functions_fit(captures: &Captures, values: &[Value]) -> bool
    ensures yes { IsTrue result → ValsSound captures.now (vals_of values.now) }
    ensures no { IsFalse result → ValsSound captures.now (vals_of values.now) → ⊥ }
{
    for value in values {
        if !functions_fit(captures, value) {
            return false;
        }
    }
    true
}

#[cycle(functions)]
#[tactic(auto, using(sky_base::proofs::Values::inside))]
fn functions_in_fit(captures: &Captures, pairs: &[Pair]) -> bool
    ensures yes { IsTrue result → PairsSound captures.now (pairs_of pairs.now) }
    ensures no { IsFalse result → PairsSound captures.now (pairs_of pairs.now) → ⊥ }
{
    for pair in pairs {
        if !functions_fit(captures, &pair.value) {
            return false;
        }
    }
    true
}

// Whether the function is one of the script, and uses each name that it captured.
fn takes(captures: &Captures, fun: &Txt, caught: &Pairs) -> bool
    ensures yes { IsTrue result → TakesIf (find_fun fun.now captures.now.funs) caught.now }
    ensures no { IsFalse result → TakesIf (find_fun fun.now captures.now.funs) caught.now → ⊥ }
{
    match captures.uses(fun) {
        None => false,
        Some(keys) => all_in(keys, caught.as_slice()),
    }
}
