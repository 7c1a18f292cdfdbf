// The operators that only the interpreter uses, each exactly as the language defines it, and what an
// operator of a chain makes of two values.

ghost use Rattle.std.specs.Prelude.{◌≡◌, ◌-ℤ◌, IfOk};
ghost use Rattle.sky_base.specs.Kept.{Kept};
ghost use Rattle.sky_base.specs.Val.{no_pairs};
ghost use Rattle.sky_base.specs.View.{view};
ghost use Rattle.sky_base.specs.Op.{compare, negated, opposite, len, keys, has, range, numbers, span, all_keys, dict_from, limited};
ghost use Rattle.sky_base.specs.OpView.{Answers, Exactly};
ghost use Rattle.sky_base.specs.Eval.{oper, truth_of, lit_val};
ghost use Rattle.sky_base.specs.TreeView.{arith_view, order_view, lit_view};
ghost use Rattle.sky_base_scope.specs.Plain.{items};
ghost use Rattle.sky_base_scope.specs.RunView.{Decides};

use sky_base::compare::compare;
use sky_base::fault::FaultKind;
use sky_base::op::{OpRefusal, limited, minus, over, plus, rest, times};
use sky_base::text::Memory;
use sky_base::tree::{ArithOp, Cmp, Lit};
use sky_base::value::{Pairs, Vals, Value};
use std::alloc::Global;

/// What an operator of a chain makes of two values.
pub fn apply(alloc: Global, op: ArithOp, a: &Value, b: &Value) -> Result<Value, OpRefusal>
    requires a { Kept (view a.now) }
    requires b { Kept (view b.now) }
    ensures answer { Answers result (oper (arith_view op) (view a.now) (view b.now)) }
    ensures kept { IfOk result (λ v. Kept (view v)) }
{
    match op {
        ArithOp::Plus => plus(alloc, a, b),
        ArithOp::Minus => Ok(minus(a, b)?),
        ArithOp::Times => Ok(times(a, b)?),
        ArithOp::Over => Ok(over(a, b)?),
        ArithOp::Rest => Ok(rest(a, b)?),
    }
}

/// What a comparison answers.
pub fn compared(how: Cmp, a: &Value, b: &Value) -> Result<Value, FaultKind>
    ensures answer { Exactly result (compare (order_view how) (view a.now) (view b.now)) }
    ensures kept { IfOk result (λ v. Kept (view v)) }
{
    Ok(Value::Bool(compare(how, a, b)?))
}

/// The value of a literal.
pub fn literal(lit: &Lit) -> Result<Value, OpRefusal>
    ensures answer { Answers result (limited (lit_val (lit_view lit.now))) }
    ensures kept { IfOk result (λ v. Kept (view v)) }
{
    let v = match lit {
        Lit::Null => Value::Null,
        Lit::Bool(b) => Value::Bool(*b),
        Lit::Int(n) => Value::Int(*n),
        Lit::Text(t) => Value::Text(t.share()?),
    };
    Ok(limited(v)?)
}

/// `-v`: 0 minus a number, or Overflow; BadKind at other kinds.
pub fn negated(v: &Value) -> Result<Value, FaultKind>
    ensures answer { Exactly result (negated (view v.now)) }
    ensures kept { IfOk result (λ v. Kept (view v)) }
{
    match v {
        Value::Int(n) => match 0i64.checked_sub(*n) {
            Some(n) => Ok(Value::Int(n)),
            None => Err(FaultKind::Overflow),
        },
        _ => Err(FaultKind::BadKind),
    }
}

/// `!v` of a truth value; BadKind at other kinds.
pub fn opposite(v: &Value) -> Result<Value, FaultKind>
    ensures answer { Exactly result (opposite (view v.now)) }
    ensures kept { IfOk result (λ v. Kept (view v)) }
{
    match v {
        Value::Bool(b) => Ok(Value::Bool(!*b)),
        _ => Err(FaultKind::BadKind),
    }
}

/// The truth value itself; BadKind at other kinds.
pub fn truth(v: &Value) -> Result<bool, FaultKind>
    ensures { Decides result (view v.now) }
{
    match v {
        Value::Bool(b) => Ok(*b),
        _ => Err(FaultKind::BadKind),
    }
}

/// How many bytes a text has, or elements a list, or pairs a dictionary; BadKind at other kinds.
#[tactic(auto, using(crate::proofs::OpLaw::counts))]
pub fn len(v: &Value) -> Result<Value, FaultKind>
    requires { Kept (view v.now) }
    ensures answer { Exactly result (len (view v.now)) }
    ensures kept { IfOk result (λ v. Kept (view v)) }
{
    match v {
        Value::Text(t) => Ok(Value::Int(t.len() as i64)),
        Value::List(vs) => Ok(Value::Int(vs.len() as i64)),
        Value::Dict(ps) => Ok(Value::Int(ps.len() as i64)),
        _ => Err(FaultKind::BadKind),
    }
}

/// The keys of a dictionary, in their order; TooLarge where the list passes that limit, BadKind at
/// other kinds.
pub fn keys(alloc: Global, v: &Value) -> Result<Value, OpRefusal>
    ensures answer { Answers result (keys (view v.now)) }
    ensures kept { IfOk result (λ v. Kept (view v)) }
{
    match v {
        Value::Dict(ps) => {
            let keys = all_keys(alloc, ps)?;
            Ok(limited(Value::List(keys))?)
        }
        _ => Err(OpRefusal::Refused(FaultKind::BadKind)),
    }
}

#[tactic(auto, using(crate::proofs::OpLaw::joined))]
fn all_keys(alloc: Global, ps: &Pairs) -> Result<Vals, Memory>
    ensures { IfOk result (λ vs. vs ≡ all_keys ps.now) }
{
    let mut keys = Vals::new(alloc);
    for pair in ps.as_slice() {
        keys.push(Value::Text(pair.key.share()?))?;
    }
    Ok(keys)
}

/// Whether a dictionary has a key; BadKind at other kinds.
pub fn has(v: &Value, key: &Value) -> Result<Value, FaultKind>
    ensures answer { Exactly result (has (view v.now) (view key.now)) }
    ensures kept { IfOk result (λ v. Kept (view v)) }
{
    match v {
        Value::Dict(ps) => match key {
            Value::Text(key) => Ok(Value::Bool(ps.find(key).is_some())),
            _ => Err(FaultKind::BadKind),
        },
        _ => Err(FaultKind::BadKind),
    }
}

/// The numbers from one up to, and without, another; TooLarge above 262,143 numbers, BadKind at other
/// kinds.
#[tactic(auto, using(crate::proofs::OpLaw::spans))]
pub fn range(alloc: Global, from: &Value, to: &Value) -> Result<Value, OpRefusal>
    ensures answer { Answers result (range (view from.now) (view to.now)) }
    ensures kept { IfOk result (λ v. Kept (view v)) }
{
    let Value::Int(from) = from else {
        return Err(OpRefusal::Refused(FaultKind::BadKind));
    };
    let Value::Int(to) = to else {
        return Err(OpRefusal::Refused(FaultKind::BadKind));
    };
    if *to as i128 - *from as i128 > 262_143 {
        return Err(OpRefusal::Refused(FaultKind::TooLarge));
    }
    let numbers = numbers(alloc, *from, *to)?;
    Ok(Value::List(numbers))
}

#[tactic(auto, using(crate::proofs::OpLaw::rows_of_numbers))]
fn numbers(alloc: Global, from: i64, to: i64) -> Result<Vals, Memory>
    ensures { IfOk result (λ vs. vs ≡ numbers (span (to -ℤ from)) from) }
{
    let mut numbers = Vals::new(alloc);
    let mut next = from;
    while next < to {
        numbers.push(Value::Int(next))?;
        next += 1;
    }
    Ok(numbers)
}

/// The dictionary of these keys and values in turn, where of equal keys the last stands. BadKind where
/// a key is no text, then TooDeep, TooLarge where it passes a limit.
#[tactic(auto, using(crate::proofs::OpLaw::twos))]
pub fn dictionary(alloc: Global, parts: &Vals) -> Result<Value, OpRefusal>
    ensures answer { Answers result (dict_from (items parts.now) no_pairs) }
    ensures kept { IfOk result (λ v. Kept (view v)) }
{
    let parts = parts.as_slice();
    let mut pairs = Pairs::new(alloc);
    let mut i = 0;
    while i < parts.len() {
        let Value::Text(key) = &parts[i] else {
            return Err(OpRefusal::Refused(FaultKind::BadKind));
        };
        if i + 1 == parts.len() {
            return Err(OpRefusal::Refused(FaultKind::BadKind));
        }
        pairs.insert(key.share()?, parts[i + 1].copy()?)?;
        i += 2;
    }
    Ok(limited(Value::Dict(pairs))?)
}
