// Comparison of values: equality of any two values that hold no function and no reference, and the
// order of two numbers or of two texts.

ghost use Rattle.std.specs.Prelude.{◌≡◌};
ghost use Rattle.sky_base.specs.Op.{compare, equal};
ghost use Rattle.sky_base.specs.OpView.{Tells, Ranks};
ghost use Rattle.sky_base.specs.TreeView.{order_view};
ghost use Rattle.sky_base.specs.Val.{is_plain, vals_plain, pairs_plain};
ghost use Rattle.sky_base.specs.View.{view, vals_of, pairs_of};

use crate::fault::FaultKind;
use crate::same::is_same;
use crate::tree::Cmp;
use crate::value::{Pair, Value};
use std::cmp::Ordering;

/// Whether two values compare so. Equality is of any two values that hold no function and no
/// reference, and values of different kinds are unequal; order is of two numbers, or of two texts by
/// their bytes. BadKind at all else. It takes no memory.
pub fn compare(how: Cmp, a: &Value, b: &Value) -> Result<bool, FaultKind>
    ensures { Tells result (compare (order_view how) (view a.now) (view b.now)) }
{
    match how {
        Cmp::Eq => equal(a, b),
        Cmp::Ne => Ok(!equal(a, b)?),
        Cmp::Lt => Ok(ranking(a, b)?.is_lt()),
        Cmp::Le => Ok(ranking(a, b)?.is_le()),
        Cmp::Gt => Ok(ranking(a, b)?.is_gt()),
        Cmp::Ge => Ok(ranking(a, b)?.is_ge()),
    }
}

// How two numbers or two texts are ordered.
fn ranking(a: &Value, b: &Value) -> Result<Ordering, FaultKind>
    ensures { Ranks result (view a.now) (view b.now) }
{
    match a {
        Value::Int(a) => match b {
            Value::Int(b) => Ok(a.cmp(b)),
            _ => Err(FaultKind::BadKind),
        },
        Value::Text(a) => match b {
            Value::Text(b) => Ok(a.cmp(b)),
            _ => Err(FaultKind::BadKind),
        },
        _ => Err(FaultKind::BadKind),
    }
}

// Whether two values are equal, where both may be asked. They hold no reference, so what references
// are equal is all one.
#[tactic(auto, using(crate::proofs::Equal::plain))]
fn equal(a: &Value, b: &Value) -> Result<bool, FaultKind>
    ensures { Tells result (equal (view a.now) (view b.now)) }
{
    if is_plain(a) && is_plain(b) {
        Ok(is_same(a, b))
    } else {
        Err(FaultKind::BadKind)
    }
}

/// Whether the value holds no function and no reference.
#[cycle(plain)]
pub fn is_plain(v: &Value) -> bool
    ensures { result ≡ is_plain (view v.now) }
{
    match v {
        Value::List(vs) => are_plain(vs.as_slice()),
        Value::Dict(ps) => are_pairs_plain(ps.as_slice()),
        Value::Fun { .. } | Value::Ref(_) => false,
        _ => true,
    }
}

#[cycle(plain)]
#[tactic(auto, using(crate::proofs::Values::inside))]
fn are_plain(vs: &[Value]) -> bool
    ensures { result ≡ vals_plain (vals_of vs.now) }
{
    for v in vs {
        if !is_plain(v) {
            return false;
        }
    }
    true
}

#[cycle(plain)]
#[tactic(auto, using(crate::proofs::Values::inside))]
fn are_pairs_plain(ps: &[Pair]) -> bool
    ensures { result ≡ pairs_plain (pairs_of ps.now) }
{
    for p in ps {
        if !is_plain(&p.value) {
            return false;
        }
    }
    true
}
