// Whether variables are those with which a body begins.

ghost use Rattle.std.specs.Prelude.{IfOk, IsTrue, IsFalse};
ghost use Rattle.sky_base.specs.Eval.{find_fun};
ghost use Rattle.sky_base_law.specs.Tasks.{Each};
ghost use Rattle.sky_state.specs.Fits.{uses_of, KeysFrom, HasKey};
ghost use Rattle.sky_frozen.specs.Keys.{AllInEither};

use crate::captures::Captures;
use crate::keys::{all_found, all_in_either, keys_of};
use sky_base::text::{Memory, Txt};
use sky_base::value::Pairs;
use std::alloc::Global;

/// Whether the variables are exactly the parameters and names that the function uses: each is one of these, and each parameter is
/// set. Main, with the empty name, uses nothing.
///
/// Answers `Memory` for want of memory.
pub fn are_bound(
    alloc: Global,
    captures: &Captures,
    fun: &Txt,
    params: &[Txt],
    vars: &Pairs,
) -> Result<bool, Memory>
    ensures keys { IfOk result (λ b. IsTrue b → KeysFrom params.now (uses_of (find_fun fun.now captures.now.funs)) vars.now) }
    ensures params { IfOk result (λ b. IsTrue b → Each (HasKey vars.now) params.now) }
    ensures no { IfOk result (λ b. IsFalse b → KeysFrom params.now (uses_of (find_fun fun.now captures.now.funs)) vars.now
        → Each (HasKey vars.now) params.now → ⊥) }
{
    let own = keys_of(alloc, params)?;
    match captures.uses(fun) {
        Some(uses) => Ok(are_set(&own, uses, params, vars)),
        None => {
            let none = Pairs::new(alloc);
            Ok(are_set(&own, &none, params, vars))
        }
    }
}

// Whether each variable is one of these names or of those, and each parameter is set.
fn are_set(own: &Pairs, uses: &Pairs, params: &[Txt], vars: &Pairs) -> bool
    ensures keys { IsTrue result → AllInEither own.now uses.now vars.now }
    ensures params { IsTrue result → Each (HasKey vars.now) params.now }
    ensures no { IsFalse result → AllInEither own.now uses.now vars.now → Each (HasKey vars.now) params.now → ⊥ }
{
    if !all_in_either(own, uses, vars.as_slice()) {
        return false;
    }
    all_found(vars, params)
}
