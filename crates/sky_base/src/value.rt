// Values of a script. Lists and dictionaries share their items, so that a copy of any value takes
// constant time, and keep the sum of the sizes and the greatest depth of what they hold beside the
// items, so that each check of a limit takes constant time too.

ghost use Rattle.std.specs.Prelude.{◌≡◌, ◌≤◌, ◌<◌, ◌+◌, ◌-◌, ◌^◌, Some, IfSome, IfOk, IfErr, MatchOption, IsTrue, ◌↔◌, ◌⊎◌, length, min, max, nat_lt};
ghost use Rattle.sky_base.specs.Val.{Rising, count, pair_count};
ghost use Rattle.sky_base.specs.Op.{val_at, join, find, put, put_val};
ghost use Rattle.sky_base.specs.Val.{no_vals, add_val, no_pairs};
ghost use Rattle.sky_base.specs.Val.{size, sizes, pair_sizes, depth, depths, pair_depths, most_depth, most_size};
ghost use Rattle.sky_base.specs.View.{view, vals_of, pairs_of};
ghost use Rattle.sky_base.specs.Totals.{Totals};

use crate::name::Name;
use crate::place::place;
use crate::shared::{Share, Shared, copy_onto};
use crate::text::{Memory, Txt};
use std::alloc::Global;
use std::marker::Model;

/// The greatest size of a value.
pub const MOST_SIZE: u64 = 262_144;

/// The greatest depth of a value.
pub const MOST_DEPTH: u32 = 100;

/// A value of a script.
#[cycle(value)]
pub enum Value {
    Null,
    Bool(bool),
    Int(i64),
    Text(Txt),
    List(Vals),
    Dict(Pairs),
    /// A function, by its name, with the pairs that it captured: variables of its body from the start. A
    /// named function has none; an anonymous one has the name `#k`, k its number in the script.
    Fun { name: Txt, caught: Pairs },
    /// A reference to the object of this name.
    Ref(Name),
}

// Written by hand, so that a value that is let go of is one call and not a match over all kinds.
impl Drop for Value {
    #[cycle(value_drop)]
    fn drop(self) {
        match self {
            Value::Null => {}
            Value::Bool(_) => {}
            Value::Int(_) => {}
            Value::Text(_) => {}
            Value::List(_) => {}
            Value::Dict(_) => {}
            Value::Fun { name: _, caught: _ } => {}
            Value::Ref(_) => {}
        }
    }
}

/// A list of values, which several owners may share.
#[cycle(value)]
#[derive(Drop)]
pub struct Vals {
    items: Shared<Value>,
    totals: Total,
}

/// A size and a depth, each up to the greatest number of its type: no limit is near there.
#[derive(Clone, Copy)]
struct Total {
    size: u64,
    depth: u32,
}

impl Model for Vals {
    ghost use Rattle.sky_base.specs.Val as logic;
    ghost use Rattle.sky_base.specs.Code.{vals_code};
    ghost use Rattle.std.specs.Prelude.{List, ℕ};

    ghost Value = { logic.Vals (List ℕ) };

    ghost coded = { vals_code };

    ghost use Rattle.sky_base.specs.Held.{held};
    ghost use Rattle.sky_base.specs.View.{vals_of};

    ghost view = { λ a. vals_of (held a.items) };

    ghost use Rattle.sky_base.specs.Totals.{Totals};
    ghost use Rattle.sky_base.specs.Val.{sizes, depths};

    ghost invariant = { λ a. Totals (sizes (vals_of (held a.items))) (depths (vals_of (held a.items))) a.totals };

    ghost use Rattle.sky_base.specs.Val.{vals_nodes};

    ghost size = { vals_nodes };

    ghost use Rattle.sky_base.specs.Falls.{held_vals_fall};
    ghost use Rattle.std.proofs.Common.{arith};

    ghost size_decreases = { λ a h. omega (arith, held_vals_fall a.items) };
}

/// A key with its value.
#[cycle(value)]
#[derive(Drop)]
pub struct Pair {
    pub key: Txt,
    pub value: Value,
}

/// A dictionary: pairs whose keys rise, each above the one before it by its bytes. Several owners may
/// share them.
#[cycle(value)]
#[derive(Drop)]
pub struct Pairs {
    items: Shared<Pair>,
    totals: Total,
}

impl Model for Pairs {
    ghost use Rattle.sky_base.specs.Val as logic;
    ghost use Rattle.sky_base.specs.Code.{pairs_code};
    ghost use Rattle.std.specs.Prelude.{List, ℕ};

    ghost Value = { logic.Pairs (List ℕ) };

    ghost coded = { pairs_code };

    ghost use Rattle.sky_base.specs.Held.{held};
    ghost use Rattle.sky_base.specs.View.{pairs_of};

    ghost view = { λ a. pairs_of (held a.items) };

    ghost use Rattle.sky_base.specs.Totals.{Totals};
    ghost use Rattle.sky_base.specs.Val.{pair_sizes, pair_depths, Rising};

    ghost invariant = { λ a. Rising (pairs_of (held a.items))
        × Totals (pair_sizes (pairs_of (held a.items))) (pair_depths (pairs_of (held a.items))) a.totals };

    ghost use Rattle.sky_base.specs.Val.{pairs_nodes};

    ghost size = { pairs_nodes };

    ghost use Rattle.sky_base.specs.Falls.{held_pairs_fall};
    ghost use Rattle.std.proofs.Common.{arith};

    ghost size_decreases = { λ a h. omega (arith, held_pairs_fall a.items) };
}

impl Total {
    // Those of a list with this one's items and that one's.
    fn with(self, other: Total) -> Total
        ensures size { result.size ≡ min (self.size + other.size) (2 ^ 64 - 1) }
        ensures depth { result.depth ≡ max self.depth other.depth }
    {
        Total {
            size: self.size.saturating_add(other.size),
            depth: self.depth.max(other.depth),
        }
    }

    // Those after an item with the totals `old` gave way to one with `new`, where they can be told
    // without a look at the other items: nothing was cut off, and the item that went wasn't the only
    // one so deep.
    fn replaced(self, old: Total, new: Total) -> Option<Total>
        requires { old.size ≤ self.size }
        ensures size { IfSome result (λ t. (self.size < 2 ^ 64 - 1) × (t.size ≡ min (self.size - old.size + new.size) (2 ^ 64 - 1))) }
        ensures depth { IfSome result (λ t. ((old.depth < self.depth) ⊎ (self.depth ≤ new.depth)) × (t.depth ≡ max self.depth new.depth)) }
    {
        if self.size == u64::MAX || (old.depth >= self.depth && new.depth < self.depth) {
            return None;
        }
        Some(Total {
            size: (self.size - old.size).saturating_add(new.size),
            depth: self.depth.max(new.depth),
        })
    }

    // Those of a value that holds what these are of.
    fn around(self) -> Total
        ensures size { result.size ≡ min (self.size + 1) (2 ^ 64 - 1) }
        ensures depth { result.depth ≡ min (self.depth + 1) (2 ^ 32 - 1) }
    {
        Total {
            size: self.size.saturating_add(1),
            depth: self.depth.saturating_add(1),
        }
    }

    // Those of a value that holds no other, of so many bytes.
    fn of_bytes(bytes: usize) -> Total
        ensures size { result.size ≡ min (bytes + 1) (2 ^ 64 - 1) }
        ensures depth { result.depth ≡ 1 }
    {
        Total {
            size: (bytes as u64).saturating_add(1),
            depth: 1,
        }
    }
}

impl Value {
    // The size and the depth.
    fn totals(&self) -> Total
        ensures { Totals (size (view self.now)) (depth (view self.now)) result }
    {
        match self {
            Value::Null | Value::Bool(_) | Value::Int(_) => Total { size: 1, depth: 1 },
            Value::Text(t) => Total::of_bytes(t.len()),
            Value::List(vs) => vs.totals.around(),
            Value::Dict(ps) => ps.totals.around(),
            Value::Fun { name, caught } => caught.totals.around().with(Total {
                size: name.len() as u64,
                depth: 0,
            }),
            Value::Ref(_) => Total { size: 32, depth: 1 },
        }
    }

    /// The size, at most 262,144. Null, a truth value and a number have size 1, a text 1 and its bytes,
    /// a function 1, the bytes of its name, the bytes of its captured keys and the sizes of its captured
    /// values, a list 1 and the sizes of its elements, a dictionary 1, the bytes of its keys and the sizes
    /// of its values, and a reference 32, however long names are.
    pub fn size(&self) -> u64
        requires { size (view self.now) ≤ most_size }
        ensures { result ≡ size (view self.now) }
    {
        self.totals().size
    }

    /// The depth, at most 100: 1, and for a list or a dictionary that isn't empty, or a function that
    /// captured something, 1 more than that of the deepest value in it.
    pub fn depth(&self) -> u32
        requires { depth (view self.now) ≤ most_depth }
        ensures { result ≡ depth (view self.now) }
    {
        self.totals().depth
    }

    /// Whether the size is above its limit, 262,144.
    pub fn is_too_large(&self) -> bool
        ensures { result ≡ nat_lt most_size (size (view self.now)) }
    {
        self.totals().size > MOST_SIZE
    }

    /// Whether the depth is above its limit, 100.
    pub fn is_too_deep(&self) -> bool
        ensures { result ≡ nat_lt most_depth (depth (view self.now)) }
    {
        self.totals().depth > MOST_DEPTH
    }

    /// An equal value, in constant time.
    pub fn copy(&self) -> Result<Value, Memory>
        ensures { IfOk result (λ v. v ≡ self.now) }
    {
        match self {
            Value::Null => Ok(Value::Null),
            Value::Bool(b) => Ok(Value::Bool(*b)),
            Value::Int(n) => Ok(Value::Int(*n)),
            Value::Text(t) => Ok(Value::Text(t.share()?)),
            Value::List(vs) => Ok(Value::List(vs.copy()?)),
            Value::Dict(ps) => Ok(Value::Dict(ps.copy()?)),
            Value::Fun { name, caught } => Ok(Value::Fun {
                name: name.share()?,
                caught: caught.copy()?,
            }),
            Value::Ref(n) => Ok(Value::Ref(*n)),
        }
    }
}

impl Share for Value {
    fn share(&self) -> Result<Value, Memory> {
        self.copy()
    }
}

impl Vals {
    /// The empty list.
    pub fn new(alloc: Global) -> Vals
        ensures { result ≡ no_vals }
    {
        Vals {
            items: Shared::new(alloc),
            totals: Total { size: 0, depth: 0 },
        }
    }

    /// The elements in order.
    pub fn as_slice(&self) -> &[Value]
        ensures { vals_of result.now ≡ self.now }
    {
        self.items.as_slice()
    }

    /// How many elements there are.
    #[tactic(auto, using(crate::proofs::Values::values))]
    pub fn len(&self) -> usize
        ensures { result ≡ count self.now }
    {
        self.items.as_slice().len()
    }

    /// The element at a place from 0, if there is one.
    #[tactic(auto, using(crate::proofs::Values::values))]
    pub fn get(&self, i: usize) -> Option<&Value>
        ensures { MatchOption result (val_at self.now i ≡ None) (λ v. val_at self.now i ≡ Some (view v.now)) }
    {
        let items = self.items.as_slice();
        if i < items.len() {
            Some(&items[i])
        } else {
            None
        }
    }

    /// Puts a value at the end. After `Memory` the list is as it was.
    #[tactic(auto, using(crate::proofs::Values::joins))]
    pub fn push(&mut self, v: Value) -> Result<(), Memory>
        ensures ok { IfOk result (λ _. self.new ≡ add_val self.old (view v)) }
        ensures err { IfErr result (λ _. self.new ≡ self.old) }
    {
        let totals = self.totals.with(v.totals());
        self.items.push(v)?;
        self.totals = totals;
        Ok(())
    }

    /// Puts a value in the place of the element at `at`. After `Memory` the list is as it was.
    #[tactic(auto, using(crate::proofs::Sums::vals_sums))]
    pub fn set(&mut self, at: usize, v: Value) -> Result<(), Memory>
        requires { at < count self.old }
        ensures ok { IfOk result (λ _. put_val self.old at (view v) ≡ Some self.new) }
        ensures err { IfErr result (λ _. self.new ≡ self.old) }
    {
        let totals = self
            .totals
            .replaced(self.items.as_slice()[at].totals(), v.totals());
        self.items.set(at, v)?;
        if let Some(totals) = totals {
            self.totals = totals;
            return Ok(());
        }
        self.totals = vals_totals(self.items.as_slice());
        Ok(())
    }

    /// The elements of this list and then those of another, in a list of their own.
    #[tactic(auto, using(crate::proofs::Values::joins))]
    pub fn joined(&self, other: &Vals) -> Result<Vals, Memory>
        ensures { IfOk result (λ v. v ≡ join self.now other.now) }
    {
        let (first, second) = (self.items.as_slice(), other.items.as_slice());
        let mut items = Vec::new(self.items.allocator());
        copy_onto(&mut items, first)?;
        copy_onto(&mut items, second)?;
        Ok(Vals {
            items: Shared::from_vec(items)?,
            totals: self.totals.with(other.totals),
        })
    }

    /// The sum of the sizes of the elements, at most 262,144.
    pub fn sizes(&self) -> u64
        requires { sizes self.now ≤ most_size }
        ensures { result ≡ sizes self.now }
    {
        self.totals.size
    }

    /// An equal list, in constant time.
    pub fn copy(&self) -> Result<Vals, Memory>
        ensures { IfOk result (λ v. v ≡ self.now) }
    {
        Ok(Vals {
            items: self.items.share()?,
            totals: self.totals,
        })
    }
}

// The sum of the sizes and the greatest depth of the values.
fn vals_totals(items: &[Value]) -> Total
    ensures { Totals (sizes (vals_of items.now)) (depths (vals_of items.now)) result }
{
    let mut all = Total { size: 0, depth: 0 };
    for v in items {
        all = all.with(v.totals());
    }
    all
}

impl Pair {
    // The bytes of the key and the size of the value, and the depth of the value.
    fn totals(&self) -> Total
        ensures { Totals (length self.now.key + size (view self.now.value)) (depth (view self.now.value)) result }
    {
        let Total { size, depth } = self.value.totals();
        Total {
            size: (self.key.len() as u64).saturating_add(size),
            depth,
        }
    }
}

impl Share for Pair {
    fn share(&self) -> Result<Pair, Memory> {
        Ok(Pair {
            key: self.key.share()?,
            value: self.value.copy()?,
        })
    }
}

impl Pairs {
    /// The empty dictionary.
    pub fn new(alloc: Global) -> Pairs
        ensures { result ≡ no_pairs }
    {
        Pairs {
            items: Shared::new(alloc),
            totals: Total { size: 0, depth: 0 },
        }
    }

    /// The pairs in the order of their keys, which rise.
    pub fn as_slice(&self) -> &[Pair]
        ensures pairs { pairs_of result.now ≡ self.now }
        ensures rising { Rising self.now }
    {
        self.items.as_slice()
    }

    /// How many pairs there are.
    #[tactic(auto, using(crate::proofs::Values::pair_counts))]
    pub fn len(&self) -> usize
        ensures { result ≡ pair_count self.now }
    {
        self.items.as_slice().len()
    }

    /// Puts a value at a key, in the place of the value that was there. After `Memory` the dictionary is
    /// as it was.
    #[tactic(auto, using(crate::proofs::Sums::pairs_sums))]
    pub fn insert(&mut self, key: Txt, value: Value) -> Result<(), Memory>
        ensures ok { IfOk result (λ _. self.new ≡ put key (view value) self.old) }
        ensures err { IfErr result (λ _. self.new ≡ self.old) }
    {
        let pair = Pair { key, value };
        let added = pair.totals();
        let at = match place(self.items.as_slice(), &pair.key) {
            Ok(at) => at,
            Err(at) => {
                let totals = self.totals.with(added);
                self.items.insert(at, pair)?;
                self.totals = totals;
                return Ok(());
            }
        };
        let totals = self
            .totals
            .replaced(self.items.as_slice()[at].totals(), added);
        self.items.set(at, pair)?;
        if let Some(totals) = totals {
            self.totals = totals;
            return Ok(());
        }
        self.totals = pairs_totals(self.items.as_slice());
        Ok(())
    }

    /// The value at a key, if it has one.
    #[tactic(auto, using(crate::proofs::Keys::finds))]
    pub fn find(&self, key: &Txt) -> Option<&Value>
        ensures { MatchOption result (find key.now self.now ≡ None) (λ v. find key.now self.now ≡ Some (view v.now)) }
    {
        let items = self.items.as_slice();
        match place(items, key) {
            Ok(at) => Some(&items[at].value),
            Err(_) => None,
        }
    }

    /// The sum of the bytes of the keys and the sizes of the values, at most 262,144.
    pub fn sizes(&self) -> u64
        requires { pair_sizes self.now ≤ most_size }
        ensures { result ≡ pair_sizes self.now }
    {
        self.totals.size
    }

    /// An equal dictionary, in constant time.
    pub fn copy(&self) -> Result<Pairs, Memory>
        ensures { IfOk result (λ v. v ≡ self.now) }
    {
        Ok(Pairs {
            items: self.items.share()?,
            totals: self.totals,
        })
    }
}

// The sum of the sizes and the greatest depth of the pairs.
fn pairs_totals(items: &[Pair]) -> Total
    ensures { Totals (pair_sizes (pairs_of items.now)) (pair_depths (pairs_of items.now)) result }
{
    let mut all = Total { size: 0, depth: 0 };
    for p in items {
        all = all.with(p.totals());
    }
    all
}
