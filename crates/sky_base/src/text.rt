// Texts and byte lists. A text and a byte list may have several owners, by `Arc`, so that
// sharing one takes constant time.

ghost use Rattle.std.specs.Prelude.{◌≡◌, ◌↔◌, ◌≤◌, IfOk, IsTrue, [], length, slice_range, string_bytes};
ghost use Rattle.std.proofs.Common.{rules};
ghost use Rattle.std.specs.Cmp.{partial_order_from_own_ties};
ghost use Rattle.std.specs.Cmp.Lexicographic.{slice_cmp};
ghost use Rattle.std.specs.Cmp.Rules.{comparing};
ghost use Rattle.std.specs.Ordering.{nat_cmp, as_partial_cmp};
ghost use Rattle.std.specs.Str.{IsUtf8};
ghost use Rattle.sky_base.specs.Val.{same_text};

use std::alloc::Global;
use std::cmp::Ordering;
use std::convert::AsStr;
use std::marker::Model;
use std::sync::{Arc, ArcStr};

/// Want of memory.
#[derive(Clone, Copy, PartialEq, Eq, Debug)]
pub struct Memory;

/// A UTF-8 text, which several owners may share, ordered by its bytes. Contracts see it as the list of
/// its bytes.
#[derive(Drop)]
pub struct Txt {
    held: ArcStr,
}

impl Model for Txt {
    ghost use Rattle.std.specs.Prelude.{List, ℕ};
    ghost use Rattle.std.specs.Arc.{arc_str_bytes};
    ghost use Rattle.std.specs.Str.{IsUtf8};

    ghost Value = { List ℕ };

    ghost view = { λ t. arc_str_bytes t.held };

    ghost invariant = { λ t. IsUtf8 (arc_str_bytes t.held) };
}

impl Txt {
    /// A copy of the text.
    pub fn new(alloc: Global, text: &str) -> Result<Txt, Memory>
        ensures { IfOk result (λ t. t ≡ text.now) }
    {
        match ArcStr::from_str(alloc, text) {
            Ok(held) => Ok(Txt { held }),
            Err(_) => Err(Memory),
        }
    }

    /// A text that takes over the string's buffer.
    pub fn from_string(text: String) -> Result<Txt, Memory>
        ensures { IfOk result (λ t. t ≡ string_bytes text) }
    {
        let _bytes = text.as_str();
        match ArcStr::from_string(text) {
            Ok(held) => Ok(Txt { held }),
            Err(_) => Err(Memory),
        }
    }

    /// A second owner of the same text, in constant time.
    pub fn share(&self) -> Result<Txt, Memory>
        ensures { IfOk result (λ t. t ≡ self.now) }
    {
        match self.held.clone() {
            Ok(held) => Ok(Txt { held }),
            Err(_) => Err(Memory),
        }
    }

    /// The text itself.
    pub fn as_str(&self) -> &str
        ensures value { result.now ≡ self.now }
        ensures utf8 { IsUtf8 self.now }
    {
        self.held.as_str()
    }

    /// The number of bytes.
    pub fn len(&self) -> usize
        ensures { result ≡ length self.now }
    {
        self.held.as_str().len()
    }

    /// Whether it has no byte.
    pub fn is_empty(&self) -> bool
        ensures { IsTrue result ↔ (self.now ≡ []) }
    {
        self.held.as_str().is_empty()
    }
}

impl PartialEq for Txt {
    ghost eq = { same_text };

    ghost laws = { Prim.search (comparing, rules) };

    fn eq(&self, other: &Txt) -> bool {
        self.as_str().cmp(other.as_str()).is_eq()
    }
}

impl Eq for Txt {
    ghost laws = { Prim.search (comparing, rules) };
}

impl Ord for Txt {
    ghost cmp = { slice_cmp nat_cmp };

    ghost total = { Prim.search (comparing, rules) };

    ghost matches_partial_cmp = { Prim.search (comparing, rules) };

    ghost matches_eq = { Prim.search (comparing, rules) };

    fn cmp(&self, other: &Txt) -> Ordering {
        self.as_str().cmp(other.as_str())
    }
}

impl PartialOrd for Txt {
    ghost partial_cmp = { as_partial_cmp (slice_cmp nat_cmp) };

    ghost laws = { partial_order_from_own_ties (Prim.search (comparing, rules)) (Prim.search (comparing, rules)) };

    fn partial_cmp(&self, other: &Txt) -> Option<Ordering> {
        Some(self.cmp(other))
    }
}

impl AsStr for Txt {
    ghost text = { λ t. t };

    fn as_str(&self) -> &str {
        self.held.as_str()
    }
}

/// A part of shared bytes. Bytes are one, and have no other field, so that who holds bytes sees their list alone.
#[derive(Drop)]
struct Part {
    held: Arc<Vec<u8>, Global>,
    from: usize,
    to: usize,
}

impl Model for Part {
    ghost use Rattle.std.specs.Prelude.{List, ℕ, slice_range};
    ghost use Rattle.std.specs.Arc.{arc_value};

    ghost Value = { List ℕ };

    ghost view = { λ p. slice_range (arc_value p.held).items p.from p.to };
}

impl Part {
    fn new(alloc: Global, bytes: Vec<u8>) -> Result<Part, Memory>
        ensures { IfOk result (λ p. p ≡ bytes.items) }
    {
        let to = bytes.len();
        match Arc::new(alloc, bytes) {
            Ok(held) => Ok(Part { held, from: 0, to }),
            Err(_) => Err(Memory),
        }
    }

    fn part(&self, from: usize, to: usize) -> Result<Part, Memory>
        requires order { from ≤ to }
        requires bound { to ≤ length self.now }
        ensures part { IfOk result (λ p. p ≡ slice_range self.now from to) }
    {
        match Arc::try_clone(&self.held) {
            Ok(held) => Ok(Part {
                held,
                from: self.from + from,
                to: self.from + to,
            }),
            Err(_) => Err(Memory),
        }
    }

    fn share(&self) -> Result<Part, Memory>
        ensures { IfOk result (λ p. p ≡ self.now) }
    {
        match Arc::try_clone(&self.held) {
            Ok(held) => Ok(Part {
                held,
                from: self.from,
                to: self.to,
            }),
            Err(_) => Err(Memory),
        }
    }

    fn as_slice(&self) -> &[u8]
        ensures { result.now ≡ self.now }
    {
        let all = self.held.as_slice();
        let to = self.to.min(all.len());
        &all[self.from.min(to)..to]
    }
}

/// Bytes, which several owners may share, or a part of such. Contracts see them as a list.
#[derive(Drop)]
pub struct Bytes {
    held: Part,
}

impl Model for Bytes {
    ghost use Rattle.std.specs.Prelude.{List, ℕ};

    ghost Value = { List ℕ };

    ghost view = { λ b. b.held };
}

impl Bytes {
    /// Takes the bytes over.
    pub fn new(alloc: Global, bytes: Vec<u8>) -> Result<Bytes, Memory>
        ensures { IfOk result (λ b. b ≡ bytes.items) }
    {
        let held = Part::new(alloc, bytes)?;
        Ok(Bytes { held })
    }

    /// A second owner of the same bytes, in constant time.
    pub fn share(&self) -> Result<Bytes, Memory>
        ensures { IfOk result (λ b. b ≡ self.now) }
    {
        let held = self.held.share()?;
        Ok(Bytes { held })
    }

    /// The bytes from one place up to another, in constant time: none is copied. As long as the part has an owner, the memory of all the bytes is
    /// kept.
    pub fn part(&self, from: usize, to: usize) -> Result<Bytes, Memory>
        requires order { from ≤ to }
        requires bound { to ≤ length self.now }
        ensures part { IfOk result (λ b. b ≡ slice_range self.now from to) }
    {
        let held = self.held.part(from, to)?;
        Ok(Bytes { held })
    }

    /// The bytes themselves.
    pub fn as_slice(&self) -> &[u8]
        ensures { result.now ≡ self.now }
    {
        self.held.as_slice()
    }
}
