// The objects that are known, by the numbers of their descriptions, and the names that hold a number.

ghost use Rattle.std.specs.Prelude.{◌≡◌, ◌<◌, ◌≤◌, ◌+◌, ◌^◌, ◌-◌, ℕ, [], None, Some, IfOk, IfErr, IfSome, MatchOption, min, map, length};
ghost use Rattle.std.specs.Option.{option_map};
ghost use Rattle.sky_base.specs.Val.{known};
ghost use Rattle.sky_base.specs.See.{slot};
ghost use Rattle.sky_base.specs.ObjectView.{object_view};
ghost use Rattle.sky_base_known.specs.Walk.{number_of, known_of, object_at, is_known};
ghost use Rattle.sky_base_known.specs.Known.{with_object, KeptObject, KeptObjects};
ghost use Rattle.sky_base_known.specs.Walk.{Obj};

use sky_base::name::Name;
use sky_base::object::Object;
use sky_base::text::Memory;
use std::alloc::Global;
use std::marker::Model;

/// The objects that are known, each under the number of its description, and within the limits.
/// Contracts see them as a list with a place for each number.
#[derive(Drop)]
pub struct Objects {
    items: Vec<Option<Object>>,
}

impl Model for Objects {
    ghost use Rattle.std.specs.Prelude.{List, Option, map};
    ghost use Rattle.std.specs.Option.{option_map};
    ghost use Rattle.sky_base.specs.ObjectView.{object_view};
    ghost use Rattle.sky_base_known.specs.Walk.{Obj};
    ghost use Rattle.sky_base_known.specs.Known.{objects_code, KeptObjects};

    ghost Value = { List (Option Obj) };

    ghost coded = { objects_code };

    ghost view = { λ a. map (option_map object_view) a.items.items };

    ghost invariant = { λ a. KeptObjects (map (option_map object_view) a.items.items) };
}

impl Objects {
    /// None is known.
    pub fn new(alloc: Global) -> Objects
        ensures { result ≡ [] }
    {
        Objects {
            items: Vec::new(alloc),
        }
    }

    /// The object under the number that a name ends with, if it is known.
    #[tactic(auto, using(crate::proofs::KnownAt::knowns))]
    pub fn known(&self, name: &Name) -> Option<&Object>
        ensures value { MatchOption result (known_of self.now (known name.now) ≡ None)
            (λ o. known_of self.now (known name.now) ≡ Some (object_view o.now)) }
        ensures kept { IfSome result (λ o. KeptObject (object_view o.now)) }
    {
        let at = number(name) as usize;
        if at >= self.items.len() {
            return None;
        }
        match &self.items[at] {
            Some(object) => Some(object),
            None => None,
        }
    }

    /// Whether the object under a number is known.
    #[tactic(auto, using(crate::proofs::KnownAt::knowns))]
    pub fn has(&self, number: u32) -> bool
        ensures { result ≡ is_known (object_at self.now number) }
    {
        let at = number as usize;
        if at >= self.items.len() {
            return false;
        }
        match &self.items[at] {
            Some(_) => true,
            None => false,
        }
    }

    /// Puts an object under a number. After `Memory` the objects are as they were.
    #[tactic(auto, using(crate::proofs::KnownAt::knowns))]
    pub fn set(&mut self, number: u32, object: Object) -> Result<(), Memory>
        requires { KeptObject (object_view object) }
        ensures put { IfOk result (λ _. self.new ≡ with_object number (object_view object) self.old) }
        ensures err { IfErr result (λ _. self.new ≡ self.old) }
    {
        let at = number as usize;
        let Ok(()) = pad(&mut self.items, at + 1) else {
            return Err(Memory)
        };
        self.items[at] = Some(object);
        Ok(())
    }
}

// Puts places at the end, with no object in them, until there are so many. Each number keeps its object; after `Memory`
// the places are as they were.
fn pad(items: &mut Vec<Option<Object>>, count: usize) -> Result<(), Memory>
    ensures long { IfOk result (λ _. count ≤ length items.new.items) }
    ensures same { IfOk result (λ _. (k : ℕ) (o : Obj) → k + 1 ≡ count → with_object k o (map (option_map object_view) items.new.items)
        ≡ with_object k o (map (option_map object_view) items.old.items)) }
    ensures err { IfErr result (λ _. items.new.items ≡ items.old.items) }
    ensures kept { KeptObjects (map (option_map object_view) items.old.items) → KeptObjects (map (option_map object_view) items.new.items) }
{
    let Ok(()) = items.reserve(count.saturating_sub(items.len())) else {
        return Err(Memory)
    };
    while items.len() < count {
        items.push_reserved(None);
    }
    Ok(())
}

// The number that a name ends with, up to the greatest of its type.
#[tactic(auto, using(crate::proofs::KnownAt::digits))]
fn number(name: &Name) -> u64
    ensures { result ≡ min (number_of name.now) (2 ^ 64 - 1) }
{
    let mut number = 0u64;
    for b in name.bytes() {
        number = number.saturating_mul(256).saturating_add(*b as u64);
    }
    number
}

/// The name of 20 bytes that holds a number: 16 zero bytes, then the number, its highest byte first.
pub fn slot(number: u32) -> Name
    ensures { result ≡ slot number }
{
    let [a, b, c, d] = number.to_be_bytes();
    Name::short([0, 0, 0, 0, 0, 0, 0, 0, 0, 0, 0, 0, 0, 0, 0, 0, a, b, c, d])
}

/// The number that a name ends with, where it is one of a description.
#[tactic(auto, using(crate::proofs::KnownAt::digits))]
pub fn number_of(name: &Name) -> u32
    ensures { number_of name.now < 2 ^ 32 → result ≡ number_of name.now }
{
    number(name).min(u32::MAX as u64) as u32
}
