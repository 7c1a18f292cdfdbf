//! A stored key compared with the key of a question, whose bytes come piece by piece, so that they are never put together.

ghost use Rattle.std.specs.Prelude.{◌≡◌, ◌<◌, ◌≤◌, ◌∷◌, ◌++◌, [], length};
ghost use Rattle.std.specs.Ordering.{nat_cmp};
ghost use Rattle.std.specs.Cmp.Lexicographic.{slice_cmp};
ghost use Rattle.std.specs.declared.cmp.Ordering.{Ordering as order};
ghost use Rattle.sky_base.specs.Name.{big_endian, bytes, bytes_of_int, bytes_of_text, is_anonymous, pairs_bytes, vals_bytes};
ghost use Rattle.sky_base.specs.Val.{count, pair_count};
ghost use Rattle.sky_base.specs.View.{view};
ghost use Rattle.sky_frozen_bytes.specs.Bytes.{counted};
ghost use Rattle.ciel_memo_key.specs.Against.{order_of, taken};
ghost use Rattle.ciel_memo_key.specs.Keys.{block, key_of};

use sky_base::text::{Bytes, Txt};
use sky_base::value::{Pairs, Vals, Value};
use std::cmp::Ordering;
use std::marker::Model;

/// A key, and how the bytes so far compare with it.
#[derive(Drop)]
struct Against<'a> {
    rest: &'a [u8],
    found: Ordering,
}

impl<'a> Model for Against<'a> {
    ghost use Rattle.ciel_memo_key.specs.Against.{AgainstSeen};

    ghost Value = { AgainstSeen };

    ghost view = { λ a. record { rest = a.rest.now; found = a.found } };
}

impl<'a> Against<'a> {
    /// No bytes so far.
    fn new(key: &'a [u8]) -> Against<'a>
        ensures { result ≡ record { rest = key.now; found = order.Equal } }
    {
        Against {
            rest: key,
            found: Ordering::Equal,
        }
    }

    /// One more byte.
    fn byte(&mut self, byte: u8)
        ensures { self.new ≡ taken self.old (byte ∷ []) }
    {
        self.raw(&[byte]);
    }

    /// More bytes, all at once.
    #[tactic(auto, using(crate::proofs::Taking::stays))]
    fn raw(&mut self, bytes: &[u8])
        ensures { self.new ≡ taken self.old bytes.now }
    {
        if self.found.is_ne() {
            return;
        }
        *self = if bytes.len() <= self.rest.len() {
            within(self.rest, bytes)
        } else {
            beyond(self.rest, bytes)
        };
    }

    /// The low four bytes of a number.
    #[tactic(auto, using(ciel_name::proofs::Numbers::numbers))]
    fn count(&mut self, count: usize)
        ensures { self.new ≡ taken self.old (big_endian 4 count) }
    {
        let bytes = (count as u64).to_be_bytes();
        self.raw(&bytes[4..]);
    }

    /// A number in eight bytes.
    #[tactic(auto, using(ciel_name::proofs::Numbers::numbers))]
    fn int(&mut self, number: i64)
        ensures { self.new ≡ taken self.old (bytes_of_int number) }
    {
        self.raw(&number.cast_unsigned().to_be_bytes());
    }

    /// A text behind its length.
    #[tactic(auto, using(crate::proofs::Taking::takings, ciel_name::proofs::Numbers::appends))]
    fn text(&mut self, text: &Txt)
        ensures { self.new ≡ taken self.old (bytes_of_text text.now) }
    {
        self.count(text.len());
        self.raw(text.as_str().as_bytes());
    }

    /// How all bytes compare with the key.
    fn order(&self) -> Ordering
        ensures { result ≡ order_of self.now }
    {
        if self.found.is_ne() {
            return self.found;
        }
        if self.rest.is_empty() {
            return Ordering::Equal;
        }
        Ordering::Less
    }
}

/// Bytes that come first, compared with a key that has as many or more.
fn within<'a>(key: &'a [u8], bytes: &[u8]) -> Against<'a>
    requires { length bytes.now ≤ length key.now }
    ensures { result ≡ taken (record { rest = key.now; found = order.Equal }) bytes.now }
{
    let (head, rest) = key.split_at(bytes.len());
    let found = bytes.cmp(head);
    if found.is_ne() {
        return Against { rest: &[], found };
    }
    Against { rest, found }
}

/// Bytes that come first, compared with a key that has fewer.
fn beyond<'a>(key: &'a [u8], bytes: &[u8]) -> Against<'a>
    requires { length key.now < length bytes.now }
    ensures { result ≡ taken (record { rest = key.now; found = order.Equal }) bytes.now }
{
    let (front, _) = bytes.split_at(key.len());
    let found = front.cmp(key);
    if found.is_ne() {
        return Against { rest: &[], found };
    }
    Against {
        rest: &[],
        found: Ordering::Greater,
    }
}

/// Blocks behind their number.
#[tactic(auto, using(crate::proofs::Taking::takings, ciel_name::proofs::Numbers::appends))]
fn take_blocks(against: &mut Against, all: &[Bytes])
    ensures { against.new ≡ taken against.old (counted block all.now) }
{
    against.count(all.len());
    for bytes in all {
        against.count(bytes.as_slice().len());
        against.raw(bytes.as_slice());
    }
}

#[cycle(take)]
#[tactic(auto, using(crate::proofs::Taking::takings, ciel_name::proofs::Numbers::appends))]
fn take_value(against: &mut Against, value: &Value)
    ensures { against.new ≡ taken against.old (bytes (view value.now)) }
{
    match value {
        Value::Null => against.byte(0),
        Value::Bool(false) => against.byte(1),
        Value::Bool(true) => against.byte(2),
        Value::Int(number) => {
            against.byte(3);
            against.int(*number);
        }
        Value::Text(text) => {
            against.byte(4);
            against.text(text);
        }
        Value::List(values) => {
            against.byte(5);
            take_values(against, values);
        }
        Value::Dict(pairs) => {
            against.byte(6);
            take_pairs(against, pairs);
        }
        Value::Fun { name, caught } => if is_anonymous(name) {
            against.byte(10);
            against.text(name);
            take_pairs(against, caught);
        } else {
            against.byte(7);
            against.text(name);
        },
        Value::Ref(name) => {
            let bytes = name.bytes();
            against.byte(if bytes.len() == 20 { 8 } else { 9 });
            against.raw(bytes);
        }
    }
}

#[cycle(take)]
#[tactic(auto, using(crate::proofs::Taking::takings, ciel_name::proofs::Numbers::appends, sky_base::proofs::Values::inside))]
fn take_values(against: &mut Against, values: &Vals)
    ensures { against.new ≡ taken against.old (big_endian 4 (count values.now) ++ vals_bytes values.now) }
{
    against.count(values.len());
    for value in values.as_slice() {
        take_value(against, value);
    }
}

#[cycle(take)]
#[tactic(auto, using(crate::proofs::Taking::takings, ciel_name::proofs::Numbers::appends, sky_base::proofs::Values::inside))]
fn take_pairs(against: &mut Against, pairs: &Pairs)
    ensures { against.new ≡ taken against.old (big_endian 4 (pair_count pairs.now) ++ pairs_bytes pairs.now) }
{
    against.count(pairs.len());
    for pair in pairs.as_slice() {
        against.text(&pair.key);
        take_value(against, &pair.value);
    }
}

fn is_anonymous(name: &Txt) -> bool
    ensures { result ≡ is_anonymous name.now }
{
    match name.as_str().as_bytes() {
        [first, ..] => *first == b'#',
        [] => false,
    }
}

/// How the key of a question compares with a stored one. It takes no memory.
#[tactic(auto, using(crate::proofs::Taking::takings, ciel_name::proofs::Numbers::appends, crate::proofs::Taking::compares))]
pub fn compare_key(
    executor: &Txt,
    args: &Value,
    inputs: &[Bytes],
    outputs: u32,
    key: &[u8],
) -> Ordering
    ensures { result ≡ slice_cmp nat_cmp (key_of executor.now (view args.now) inputs.now outputs) key.now }
{
    let mut against = Against::new(key);
    against.text(executor);
    take_value(&mut against, args);
    against.count(outputs as usize);
    take_blocks(&mut against, inputs);
    against.order()
}
