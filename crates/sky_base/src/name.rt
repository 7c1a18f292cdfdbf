// The names of objects.

ghost use Rattle.std.specs.Prelude.{◌≡◌, ◌⊎◌, ◌==◌, length, ◌↔◌, IsTrue, IfSome};
ghost use Rattle.std.proofs.Common.{rules};
ghost use Rattle.std.specs.Cmp.{partial_order_from_own_ties};
ghost use Rattle.std.specs.Cmp.Lexicographic.{slice_cmp};
ghost use Rattle.std.specs.Cmp.Rules.{comparing};
ghost use Rattle.std.specs.Ordering.{nat_cmp, as_partial_cmp};
ghost use Rattle.sky_base.specs.NameOrder.{name_cmp, name_eq};

use std::cmp::Ordering;
use std::marker::Model;

#[derive(Clone, Copy, Debug)]
enum Held {
    Short([u8; 20]),
    Long([u8; 32]),
}

/// The name of an object: 20 or 32 bytes. The shorter ones come first, those of one length by their bytes.
#[derive(Clone, Copy, Debug)]
pub struct Name {
    held: Held,
}

impl Model for Name {
    ghost use Rattle.std.specs.Prelude.{List, ℕ};
    ghost use Rattle.sky_base.specs.NameView.{held_bytes, held_back, HeldFits, back_ok};

    ghost Value = { List ℕ };

    ghost view = { λ n. held_bytes n.held };

    ghost invariant = { λ n. HeldFits n.held };

    ghost inverse = { λ bs. record { held = held_back bs } };

    ghost inverse_ok = { λ a h. λ i. record { held = back_ok a.held h i } };
}

impl PartialEq for Name {
    ghost eq = { name_eq };

    ghost laws = { Prim.search (comparing, rules) };

    fn eq(&self, other: &Name) -> bool {
        match (&self.held, &other.held) {
            (Held::Short(left), Held::Short(right)) => left == right,
            (Held::Long(left), Held::Long(right)) => left == right,
            _ => false,
        }
    }
}

impl Eq for Name {
    ghost laws = { Prim.search (comparing, rules) };
}

impl Ord for Name {
    ghost cmp = { name_cmp };

    ghost total = { Prim.search (comparing, rules) };

    ghost matches_partial_cmp = { Prim.search (comparing, rules) };

    ghost matches_eq = { Prim.search (comparing, rules) };

    fn cmp(&self, other: &Name) -> Ordering {
        let by_length = self.bytes().len().cmp(&other.bytes().len());
        by_length.then(by_bytes(self.bytes(), other.bytes()))
    }
}

// The order of two lists of bytes. Names are digests, so nearly always their first bytes tell.
fn by_bytes(left: &[u8], right: &[u8]) -> Ordering
    ensures { result ≡ slice_cmp nat_cmp left.now right.now }
{
    if let (Some((first, _)), Some((other, _))) = (left.split_first(), right.split_first()) {
        let by_first = first.cmp(other);
        if by_first != Ordering::Equal {
            return by_first;
        }
    }
    left.cmp(right)
}

impl PartialOrd for Name {
    ghost partial_cmp = { as_partial_cmp name_cmp };

    ghost laws = { partial_order_from_own_ties (Prim.search (comparing, rules)) (Prim.search (comparing, rules)) };

    fn partial_cmp(&self, other: &Name) -> Option<Ordering> {
        Some(self.cmp(other))
    }
}

impl Name {
    /// A name of 20 bytes.
    pub fn short(bytes: [u8; 20]) -> Name
        ensures { result ≡ bytes }
    {
        Name {
            held: Held::Short(bytes),
        }
    }

    /// A name of 32 bytes.
    pub fn long(bytes: [u8; 32]) -> Name
        ensures { result ≡ bytes }
    {
        Name {
            held: Held::Long(bytes),
        }
    }

    /// The bytes.
    pub fn bytes(&self) -> &[u8]
        ensures bytes { result.now ≡ self.now }
        ensures size { (length result.now ≡ 20) ⊎ (length result.now ≡ 32) }
    {
        match &self.held {
            Held::Short(bytes) => bytes.as_slice(),
            Held::Long(bytes) => bytes.as_slice(),
        }
    }
}
