// The operators on values, with the faults of the language's table of operators. Each tries a wrong
// kind first, then its faults in the order of that table. A value keeps its allocator, so only a call
// that makes a new text is handed one.

ghost use Rattle.std.specs.Prelude.{List, ℕ, ◌≡◌, ◌≤◌, ◌<◌, ◌+◌, ◌++◌, IfOk, Some, length};
ghost use Rattle.sky_base.specs.Op.{plus, plus_num, plus_text, plus_list, minus, times, over, rest, limited, limited_list};
ghost use Rattle.sky_base.specs.Op.{index, index_list, index_dict, put, put_val, set_at, set_list, set_dict, append};
ghost use Rattle.sky_base.specs.OpView.{Answers, Exactly, Changes, ChangesPairs, Becomes};
ghost use Rattle.sky_base.specs.Val as logic;
ghost use Rattle.sky_base.specs.Val.{Val, size, depth, sizes, pair_sizes, list, dict, add_val, count, most_size};
ghost use Rattle.sky_base.specs.View.{view};
ghost use Rattle.sky_base.specs.Kept.{Kept};

use crate::fault::FaultKind;
use crate::text::{Memory, Txt};
use crate::value::{MOST_DEPTH, MOST_SIZE, Pairs, Vals, Value};
use std::alloc::Global;

/// Why an operator that takes memory gives no value.
#[derive(Clone, Copy, PartialEq, Eq, Debug)]
pub enum OpRefusal {
    /// The fault that the language names.
    Refused(FaultKind),
    /// Want of memory.
    Memory,
}

impl From<Memory> for OpRefusal {
    ghost use Rattle.std.specs.Prelude.{◌≡◌};
    ghost use Rattle.sky_base.specs.declared.op.OpRefusal.{OpRefusal};

    ghost from_gives = { λ _ e. e ≡ OpRefusal.Memory };

    fn from(_memory: Memory) -> OpRefusal {
        OpRefusal::Memory
    }
}

impl From<FaultKind> for OpRefusal {
    ghost use Rattle.std.specs.Prelude.{◌≡◌};
    ghost use Rattle.sky_base.specs.declared.op.OpRefusal.{OpRefusal};

    ghost from_gives = { λ k e. e ≡ OpRefusal.Refused k };

    fn from(kind: FaultKind) -> OpRefusal {
        OpRefusal::Refused(kind)
    }
}

/// The value itself, where it keeps the limits: else the fault TooDeep, for a depth above 100, or
/// TooLarge, for a size above 262,144. Each form that makes a value ends so.
pub fn limited(v: Value) -> Result<Value, FaultKind>
    ensures answer { Exactly result (limited (view v)) }
    ensures kept { IfOk result (λ v. Kept (view v)) }
{
    if v.is_too_deep() {
        return Err(FaultKind::TooDeep);
    }
    if v.is_too_large() {
        return Err(FaultKind::TooLarge);
    }
    Ok(v)
}

/// The sum of two numbers, or two texts or two lists joined. Overflow where the sum has no 64 signed
/// bits, TooLarge where the joined value is above the limit of size, BadKind at other kinds.
pub fn plus(alloc: Global, a: &Value, b: &Value) -> Result<Value, OpRefusal>
    requires a { Kept (view a.now) }
    requires b { Kept (view b.now) }
    ensures answer { Answers result (plus (view a.now) (view b.now)) }
    ensures kept { IfOk result (λ v. Kept (view v)) }
{
    match a {
        Value::Int(a) => plus_int(*a, b),
        Value::Text(a) => plus_text(alloc, a, b),
        Value::List(a) => plus_list(a, b),
        _ => Err(OpRefusal::Refused(FaultKind::BadKind)),
    }
}

fn plus_int(a: i64, b: &Value) -> Result<Value, OpRefusal>
    ensures answer { Answers result (plus_num a (view b.now)) }
    ensures kept { IfOk result (λ v. Kept (view v)) }
{
    match b {
        Value::Int(b) => match a.checked_add(*b) {
            Some(sum) => Ok(Value::Int(sum)),
            None => Err(OpRefusal::Refused(FaultKind::Overflow)),
        },
        _ => Err(OpRefusal::Refused(FaultKind::BadKind)),
    }
}

fn plus_text(alloc: Global, a: &Txt, b: &Value) -> Result<Value, OpRefusal>
    requires a { length a.now < most_size }
    requires b { Kept (view b.now) }
    ensures answer { Answers result (plus_text a.now (view b.now)) }
    ensures kept { IfOk result (λ v. Kept (view v)) }
{
    match b {
        Value::Text(b) => {
            if (a.len() + b.len()) as u64 >= MOST_SIZE {
                return Err(OpRefusal::Refused(FaultKind::TooLarge));
            }
            Ok(Value::Text(joined_text(alloc, a, b)?))
        }
        _ => Err(OpRefusal::Refused(FaultKind::BadKind)),
    }
}

fn joined_text(alloc: Global, a: &Txt, b: &Txt) -> Result<Txt, Memory>
    ensures { IfOk result (λ t. t ≡ a.now ++ b.now) }
{
    let mut joined = String::new(alloc);
    let Ok(()) = joined.push_str(a.as_str()) else {
        return Err(Memory)
    };
    let Ok(()) = joined.push_str(b.as_str()) else {
        return Err(Memory)
    };
    Txt::from_string(joined)
}

#[tactic(auto, using(crate::proofs::Values::joins))]
fn plus_list(a: &Vals, b: &Value) -> Result<Value, OpRefusal>
    requires a { Kept (list a.now) }
    requires b { Kept (view b.now) }
    ensures answer { Answers result (plus_list a.now (view b.now)) }
    ensures kept { IfOk result (λ v. Kept (view v)) }
{
    match b {
        Value::List(b) => {
            if a.sizes() + b.sizes() >= MOST_SIZE {
                return Err(OpRefusal::Refused(FaultKind::TooLarge));
            }
            Ok(Value::List(a.joined(b)?))
        }
        _ => Err(OpRefusal::Refused(FaultKind::BadKind)),
    }
}

/// The difference of two numbers, or Overflow; BadKind at other kinds. It takes no memory.
pub fn minus(a: &Value, b: &Value) -> Result<Value, FaultKind>
    ensures answer { Exactly result (minus (view a.now) (view b.now)) }
    ensures kept { IfOk result (λ v. Kept (view v)) }
{
    match a {
        Value::Int(a) => match b {
            Value::Int(b) => match a.checked_sub(*b) {
                Some(difference) => Ok(Value::Int(difference)),
                None => Err(FaultKind::Overflow),
            },
            _ => Err(FaultKind::BadKind),
        },
        _ => Err(FaultKind::BadKind),
    }
}

/// The product of two numbers, or Overflow; BadKind at other kinds. It takes no memory.
pub fn times(a: &Value, b: &Value) -> Result<Value, FaultKind>
    ensures answer { Exactly result (times (view a.now) (view b.now)) }
    ensures kept { IfOk result (λ v. Kept (view v)) }
{
    match a {
        Value::Int(a) => match b {
            Value::Int(b) => match a.checked_mul(*b) {
                Some(product) => Ok(Value::Int(product)),
                None => Err(FaultKind::Overflow),
            },
            _ => Err(FaultKind::BadKind),
        },
        _ => Err(FaultKind::BadKind),
    }
}

/// The quotient of two numbers, rounded towards zero. DivZero at a divisor 0, Overflow for the least
/// number by -1, BadKind at other kinds. It takes no memory.
pub fn over(a: &Value, b: &Value) -> Result<Value, FaultKind>
    ensures answer { Exactly result (over (view a.now) (view b.now)) }
    ensures kept { IfOk result (λ v. Kept (view v)) }
{
    match a {
        Value::Int(a) => match b {
            Value::Int(0) => Err(FaultKind::DivZero),
            Value::Int(b) => match a.checked_div(*b) {
                Some(quotient) => Ok(Value::Int(quotient)),
                None => Err(FaultKind::Overflow),
            },
            _ => Err(FaultKind::BadKind),
        },
        _ => Err(FaultKind::BadKind),
    }
}

/// What the quotient of two numbers leaves, with the sign of the left one; the least number by -1
/// gives 0. DivZero at a divisor 0, BadKind at other kinds. It takes no memory.
pub fn rest(a: &Value, b: &Value) -> Result<Value, FaultKind>
    ensures answer { Exactly result (rest (view a.now) (view b.now)) }
    ensures kept { IfOk result (λ v. Kept (view v)) }
{
    match a {
        Value::Int(a) => match b {
            Value::Int(0) => Err(FaultKind::DivZero),
            Value::Int(b) => Ok(Value::Int(a.wrapping_rem(*b))),
            _ => Err(FaultKind::BadKind),
        },
        _ => Err(FaultKind::BadKind),
    }
}

/// The element of a list at a number from 0, or the value of a dictionary at a text. NoIndex, NoKey
/// where there is none, BadKind at other kinds.
pub fn index(v: &Value, at: &Value) -> Result<Value, OpRefusal>
    requires { Kept (view v.now) }
    ensures answer { Answers result (index (view v.now) (view at.now)) }
    ensures kept { IfOk result (λ v. Kept (view v)) }
{
    match v {
        Value::List(vs) => index_list(vs, at),
        Value::Dict(ps) => index_dict(ps, at),
        _ => Err(OpRefusal::Refused(FaultKind::BadKind)),
    }
}

#[tactic(auto, using(crate::proofs::Values::parts))]
fn index_list(vs: &Vals, at: &Value) -> Result<Value, OpRefusal>
    requires { Kept (list vs.now) }
    ensures answer { Answers result (index_list vs.now (view at.now)) }
    ensures kept { IfOk result (λ v. Kept (view v)) }
{
    match at {
        Value::Int(i) => {
            if *i < 0 {
                return Err(OpRefusal::Refused(FaultKind::NoIndex));
            }
            match vs.get(*i as usize) {
                Some(v) => Ok(v.copy()?),
                None => Err(OpRefusal::Refused(FaultKind::NoIndex)),
            }
        }
        _ => Err(OpRefusal::Refused(FaultKind::BadKind)),
    }
}

#[tactic(auto, using(crate::proofs::Values::parts))]
fn index_dict(ps: &Pairs, at: &Value) -> Result<Value, OpRefusal>
    requires { Kept (dict ps.now) }
    ensures answer { Answers result (index_dict ps.now (view at.now)) }
    ensures kept { IfOk result (λ v. Kept (view v)) }
{
    match at {
        Value::Text(key) => match ps.find(key) {
            Some(v) => Ok(v.copy()?),
            None => Err(OpRefusal::Refused(FaultKind::NoKey)),
        },
        _ => Err(OpRefusal::Refused(FaultKind::BadKind)),
    }
}

/// Puts `e` in the place of the element of a list at a number from 0, or at a text in a dictionary,
/// where an absent key is added. NoIndex where the list has no such place, then TooDeep, TooLarge
/// where that would pass a limit, BadKind at other kinds. A refusal leaves `v` unchanged.
pub fn set_at(v: &mut Value, at: &Value, e: Value) -> Result<(), OpRefusal>
    requires v { Kept (view v.old) }
    requires at { Kept (view at.now) }
    requires e { Kept (view e) }
    ensures answer { Becomes result (set_at (view v.old) (view at.now) (view e)) v.old v.new }
    ensures kept { Kept (view v.new) }
{
    match v {
        Value::List(vs) => set_list(vs, at, e),
        Value::Dict(ps) => set_dict(ps, at, e),
        _ => Err(OpRefusal::Refused(FaultKind::BadKind)),
    }
}

#[tactic(auto, using(crate::proofs::Changes::places))]
fn set_list(vs: &mut Vals, at: &Value, e: Value) -> Result<(), OpRefusal>
    requires vs { Kept (list vs.old) }
    requires e { Kept (view e) }
    ensures answer { Changes result (set_list vs.old (view at.now) (view e)) vs.old vs.new }
    ensures kept { Kept (list vs.new) }
{
    match at {
        Value::Int(i) => {
            if *i < 0 {
                return Err(OpRefusal::Refused(FaultKind::NoIndex));
            }
            let at = *i as usize;
            if at >= vs.len() {
                return Err(OpRefusal::Refused(FaultKind::NoIndex));
            }
            set_place(vs, at, e)
        }
        _ => Err(OpRefusal::Refused(FaultKind::BadKind)),
    }
}

#[tactic(auto, using(crate::proofs::Changes::places))]
fn set_place(vs: &mut Vals, at: usize, e: Value) -> Result<(), OpRefusal>
    requires at { at < count vs.old }
    requires vs { Kept (list vs.old) }
    requires e { Kept (view e) }
    ensures answer { Changes result (limited_list (put_val vs.old at (view e))) vs.old vs.new }
    ensures kept { Kept (list vs.new) }
{
    if e.depth() >= MOST_DEPTH {
        return Err(OpRefusal::Refused(FaultKind::TooDeep));
    }
    if other_sizes(vs, at) + e.size() >= MOST_SIZE {
        return Err(OpRefusal::Refused(FaultKind::TooLarge));
    }
    vs.set(at, e)?;
    Ok(())
}

// The sum of the sizes of the elements but the one at a place.
#[tactic(auto, using(crate::proofs::Changes::other_places))]
fn other_sizes(vs: &Vals, at: usize) -> u64
    requires at { at < count vs.now }
    requires vs { sizes vs.now ≤ most_size }
    ensures most { result ≤ sizes vs.now }
    ensures sum { (e : Val (List ℕ)) (ws : logic.Vals (List ℕ)) → put_val vs.now at e ≡ Some ws → sizes ws ≡ result + size e }
{
    match vs.get(at) {
        Some(old) => vs.sizes() - old.size(),
        None => vs.sizes(),
    }
}

fn set_dict(ps: &mut Pairs, at: &Value, e: Value) -> Result<(), OpRefusal>
    requires ps { Kept (dict ps.old) }
    requires at { Kept (view at.now) }
    requires e { Kept (view e) }
    ensures answer { ChangesPairs result (set_dict ps.old (view at.now) (view e)) ps.old ps.new }
    ensures kept { Kept (dict ps.new) }
{
    match at {
        Value::Text(key) => set_key(ps, key, e),
        _ => Err(OpRefusal::Refused(FaultKind::BadKind)),
    }
}

#[tactic(auto, using(crate::proofs::Changes::keys))]
fn set_key(ps: &mut Pairs, key: &Txt, e: Value) -> Result<(), OpRefusal>
    requires ps { Kept (dict ps.old) }
    requires key { length key.now < most_size }
    requires e { Kept (view e) }
    ensures answer { ChangesPairs result (limited (dict (put key.now (view e) ps.old))) ps.old ps.new }
    ensures kept { Kept (dict ps.new) }
{
    if e.depth() >= MOST_DEPTH {
        return Err(OpRefusal::Refused(FaultKind::TooDeep));
    }
    if other_pair_sizes(ps, key) + e.size() >= MOST_SIZE {
        return Err(OpRefusal::Refused(FaultKind::TooLarge));
    }
    ps.insert(key.share()?, e)?;
    Ok(())
}

// The sum of the sizes of the pairs once a key is there, without the value at that key.
#[tactic(auto, using(crate::proofs::Changes::other_keys))]
fn other_pair_sizes(ps: &Pairs, key: &Txt) -> u64
    requires ps { pair_sizes ps.now ≤ most_size }
    requires key { length key.now < most_size }
    ensures most { result ≤ pair_sizes ps.now + length key.now }
    ensures sum { (e : Val (List ℕ)) → pair_sizes (put key.now e ps.now) ≡ result + size e }
{
    match ps.find(key) {
        Some(old) => ps.sizes() - old.size(),
        None => ps.sizes() + key.len() as u64,
    }
}

/// Makes `e` the last element of a list. TooDeep, TooLarge where that would pass a limit, BadKind
/// where `v` is no list. A refusal leaves `v` unchanged.
pub fn append(v: &mut Value, e: Value) -> Result<(), OpRefusal>
    requires v { Kept (view v.old) }
    requires e { Kept (view e) }
    ensures answer { Becomes result (append (view v.old) (view e)) v.old v.new }
    ensures kept { Kept (view v.new) }
{
    match v {
        Value::List(vs) => append_list(vs, e),
        _ => Err(OpRefusal::Refused(FaultKind::BadKind)),
    }
}

#[tactic(auto, using(crate::proofs::Values::joins))]
fn append_list(vs: &mut Vals, e: Value) -> Result<(), OpRefusal>
    requires vs { Kept (list vs.old) }
    requires e { Kept (view e) }
    ensures answer { Changes result (limited (list (add_val vs.old (view e)))) vs.old vs.new }
    ensures kept { Kept (list vs.new) }
{
    if e.depth() >= MOST_DEPTH {
        return Err(OpRefusal::Refused(FaultKind::TooDeep));
    }
    if vs.sizes() + e.size() >= MOST_SIZE {
        return Err(OpRefusal::Refused(FaultKind::TooLarge));
    }
    vs.push(e)?;
    Ok(())
}
