// A list that several owners may share. A second owner takes constant time, since a script's values
// are copied at each mention of a name. A change is made in place where there is no other owner; else
// the items are copied first, once, each in constant time. The empty list has no block, so that
// making one never fails.

ghost use Rattle.std.specs.Prelude.{◌≡◌, ◌≤◌, ◌<◌, ◌++◌, ◌∷◌, [], IfOk, IfErr, length, insert, slice_set};
ghost use Rattle.sky_base.specs.Held.{held};

use crate::text::Memory;
use std::alloc::Global;
use std::sync::Arc;

/// What can be copied in constant time, as a second owner of the same content.
pub trait Share {
    /// A second owner, or want of memory.
    fn share(&self) -> Result<Self, Memory>
        ensures { IfOk result (λ v. v ≡ self.now) };
}

/// A list in one block, which may have other owners.
#[derive(Drop)]
pub enum Shared<T> {
    Nothing(Global),
    Block(Arc<Vec<T>, Global>),
}

impl<T: Drop> Shared<T> {
    /// The empty list.
    pub fn new(alloc: Global) -> Shared<T>
        ensures { held result ≡ [] }
    {
        Shared::Nothing(alloc)
    }

    /// A list of these items, in a block of its own.
    pub fn from_vec(items: Vec<T>) -> Result<Shared<T>, Memory>
        ensures { IfOk result (λ s. held s ≡ items.items) }
    {
        match Arc::new(*items.allocator(), items) {
            Ok(items) => Ok(Shared::Block(items)),
            Err(_) => Err(Memory),
        }
    }

    /// The items in order.
    pub fn as_slice(&self) -> &[T]
        ensures { result.now ≡ held self.now }
    {
        match self {
            Shared::Nothing(_) => &[],
            Shared::Block(items) => items.as_slice(),
        }
    }

    /// The allocator of the list.
    pub fn allocator(&self) -> Global {
        match self {
            Shared::Nothing(alloc) => *alloc,
            Shared::Block(items) => *items.allocator(),
        }
    }

    /// A second owner of the same items.
    pub fn share(&self) -> Result<Shared<T>, Memory>
        ensures { IfOk result (λ s. held s ≡ held self.now) }
    {
        match self {
            Shared::Nothing(alloc) => Ok(Shared::Nothing(*alloc)),
            Shared::Block(items) => match Arc::try_clone(items) {
                Ok(items) => Ok(Shared::Block(items)),
                Err(_) => Err(Memory),
            },
        }
    }
}

impl<T: Share + Drop> Shared<T> {
    // The items in a block of their own, copied.
    fn copied(&self) -> Result<Vec<T>, Memory>
        ensures { IfOk result (λ v. v.items ≡ held self.now) }
    {
        let items = self.as_slice();
        let Ok(mut own) = Vec::with_capacity(self.allocator(), items.len()) else {
            return Err(Memory)
        };
        copy_onto(&mut own, items)?;
        Ok(own)
    }

    /// Puts an item at the end.
    pub fn push(&mut self, item: T) -> Result<(), Memory>
        ensures ok { IfOk result (λ _. held self.new ≡ held self.old ++ item ∷ []) }
        ensures err { IfErr result (λ _. held self.new ≡ held self.old) }
    {
        if let Shared::Block(items) = self {
            if let Some(own) = Arc::get_mut(items) {
                return match own.push(item) {
                    Ok(()) => Ok(()),
                    Err(_) => Err(Memory),
                };
            }
        }
        let mut own = self.copied()?;
        let Ok(()) = own.push(item) else {
            return Err(Memory)
        };
        *self = Shared::from_vec(own)?;
        Ok(())
    }

    /// Puts an item in before the one at `at`, or at the end.
    pub fn insert(&mut self, at: usize, item: T) -> Result<(), Memory>
        requires { at ≤ length (held self.old) }
        ensures ok { IfOk result (λ _. held self.new ≡ insert (held self.old) at item) }
        ensures err { IfErr result (λ _. held self.new ≡ held self.old) }
    {
        if let Shared::Block(items) = self {
            if let Some(own) = Arc::get_mut(items) {
                return match own.insert(at, item) {
                    Ok(()) => Ok(()),
                    Err(_) => Err(Memory),
                };
            }
        }
        let mut own = self.copied()?;
        let Ok(()) = own.insert(at, item) else {
            return Err(Memory)
        };
        *self = Shared::from_vec(own)?;
        Ok(())
    }

    /// Puts an item in the place of the one at `at`.
    pub fn set(&mut self, at: usize, item: T) -> Result<(), Memory>
        requires { at < length (held self.old) }
        ensures ok { IfOk result (λ _. held self.new ≡ slice_set (held self.old) at item) }
        ensures err { IfErr result (λ _. held self.new ≡ held self.old) }
    {
        if let Shared::Block(items) = self {
            if let Some(own) = Arc::get_mut(items) {
                own[at] = item;
                return Ok(());
            }
        }
        let mut own = self.copied()?;
        own[at] = item;
        *self = Shared::from_vec(own)?;
        Ok(())
    }
}

/// Puts copies of the items at the end.
pub fn copy_onto<T: Share + Drop>(own: &mut Vec<T>, items: &[T]) -> Result<(), Memory>
    ensures { IfOk result (λ _. own.new.items ≡ own.old.items ++ items.now) }
{
    for item in items {
        let Ok(()) = own.push(item.share()?) else {
            return Err(Memory)
        };
    }
    Ok(())
}
