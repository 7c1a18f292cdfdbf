// The names that a value holds, in little more than linear time.

ghost use Rattle.std.specs.Prelude.{◌≡◌, IfOk};
ghost use Rattle.sky_base.specs.Names.{known_of, gathered};
ghost use Rattle.sky_base.specs.Val.{refs, vals_refs, pairs_refs, distinct, same_text};
ghost use Rattle.sky_base.specs.View.{view, vals_of, pairs_of};

use crate::found::Found;
use crate::names::Names;
use crate::text::Memory;
use crate::value::{Pair, Value};
use std::alloc::Global;

impl Value {
    /// The distinct names in the value, in the order of their first places.
    #[tactic(auto, using(crate::proofs::Gathers::gathers))]
    pub fn refs(&self, alloc: Global) -> Result<Names, Memory>
        ensures { IfOk result (λ names. known_of names ≡ distinct same_text (refs (view self.now))) }
    {
        let mut found = Found::new(alloc);
        gather(self, &mut found)?;
        Ok(found.into_names())
    }
}

// Puts the names in the value at the end, each that isn't there yet.
#[cycle(gather)]
#[tactic(auto, using(crate::proofs::Gathers::gathers))]
fn gather(v: &Value, found: &mut Found) -> Result<(), Memory>
    ensures { IfOk result (λ _. known_of found.new ≡ gathered (known_of found.old) (refs (view v.now))) }
{
    match v {
        Value::List(vs) => gather_all(vs.as_slice(), found),
        Value::Dict(ps) => gather_pairs(ps.as_slice(), found),
        Value::Fun { caught, .. } => gather_pairs(caught.as_slice(), found),
        Value::Ref(name) => found.add(name),
        _ => Ok(()),
    }
}

#[cycle(gather)]
#[tactic(auto, using(crate::proofs::Gathers::gathers, crate::proofs::Values::inside))]
fn gather_all(vs: &[Value], found: &mut Found) -> Result<(), Memory>
    ensures { IfOk result (λ _. known_of found.new ≡ gathered (known_of found.old) (vals_refs (vals_of vs.now))) }
{
    for v in vs {
        gather(v, found)?;
    }
    Ok(())
}

#[cycle(gather)]
#[tactic(auto, using(crate::proofs::Gathers::gathers, crate::proofs::Values::inside))]
fn gather_pairs(ps: &[Pair], found: &mut Found) -> Result<(), Memory>
    ensures { IfOk result (λ _. known_of found.new ≡ gathered (known_of found.old) (pairs_refs (pairs_of ps.now))) }
{
    for p in ps {
        gather(&p.value, found)?;
    }
    Ok(())
}
