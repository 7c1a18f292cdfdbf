// The arguments that an executor is given: slots stand in the place of references, so that what it gives
// depends on no name.

ghost use Rattle.std.specs.Prelude.{◌≡◌, ◌+◌, ◌<◌, ◌^◌, IfOk, length};
ghost use Rattle.sky_base.specs.Kept.{Kept};
ghost use Rattle.sky_base.specs.See.{replaced, vals_replaced, pairs_replaced};
ghost use Rattle.sky_base.specs.Val.{Rising, refs, vals_refs, pairs_refs};
ghost use Rattle.sky_base.specs.View.{view, vals_of, pairs_of};
ghost use Rattle.sky_base_exec.specs.Perform.{in_slot, slots};

use sky_base::text::Memory;
use sky_base::value::{Pair, Pairs, Vals, Value};
use sky_base_known::objects::slot;
use std::alloc::Global;

/// The value with the reference that occurs k-th in it, from 0 on, replaced by slot k.
#[tactic(auto, using(crate::proofs::RefSlots::few))]
pub fn slots(alloc: Global, args: &Value) -> Result<Value, Memory>
    requires { Kept (view args.now) }
    ensures { IfOk result (λ v. view v ≡ slots (view args.now)) }
{
    let mut next = 0u32;
    let value = slotted(alloc, args, &mut next)?;
    Ok(value)
}

// The value with slots in the place of its references, of which `next` is the first.
#[cycle(slotted)]
fn slotted(alloc: Global, value: &Value, next: &mut u32) -> Result<Value, Memory>
    requires few { next.old + length (refs (view value.now)) < 2 ^ 32 }
    ensures value { IfOk result (λ v. view v ≡ replaced in_slot next.old (view value.now)) }
    ensures next { IfOk result (λ _. next.new ≡ next.old + length (refs (view value.now))) }
{
    match value {
        Value::List(values) => Ok(Value::List(slotted_values(alloc, values.as_slice(), next)?)),
        Value::Dict(pairs) => Ok(Value::Dict(slotted_pairs(alloc, pairs.as_slice(), next)?)),
        Value::Fun { name, caught } => Ok(Value::Fun {
            name: name.share()?,
            caught: slotted_pairs(alloc, caught.as_slice(), next)?,
        }),
        Value::Ref(_) => {
            let name = slot(*next);
            *next += 1;
            Ok(Value::Ref(name))
        }
        _ => Ok(value.copy()?),
    }
}

#[cycle(slotted)]
#[tactic(auto, using(sky_base::proofs::Values::inside, crate::proofs::RefSlots::slotting))]
fn slotted_values(alloc: Global, values: &[Value], next: &mut u32) -> Result<Vals, Memory>
    requires few { next.old + length (vals_refs (vals_of values.now)) < 2 ^ 32 }
    ensures values { IfOk result (λ v. v ≡ vals_replaced in_slot next.old (vals_of values.now)) }
    ensures next { IfOk result (λ _. next.new ≡ next.old + length (vals_refs (vals_of values.now))) }
{
    let mut all = Vals::new(alloc);
    for value in values {
        all.push(slotted(alloc, value, next)?)?;
    }
    Ok(all)
}

#[cycle(slotted)]
#[tactic(auto, using(sky_base::proofs::Values::inside, crate::proofs::RefSlots::slotting))]
fn slotted_pairs(alloc: Global, pairs: &[Pair], next: &mut u32) -> Result<Pairs, Memory>
    requires rising { Rising (pairs_of pairs.now) }
    requires few { next.old + length (pairs_refs (pairs_of pairs.now)) < 2 ^ 32 }
    ensures pairs { IfOk result (λ p. p ≡ pairs_replaced in_slot next.old (pairs_of pairs.now)) }
    ensures next { IfOk result (λ _. next.new ≡ next.old + length (pairs_refs (pairs_of pairs.now))) }
{
    let mut all = Pairs::new(alloc);
    for pair in pairs {
        let value = slotted(alloc, &pair.value, next)?;
        all.insert(pair.key.share()?, value)?;
    }
    Ok(all)
}
