//! Saved waits: where a task goes on.

ghost use Rattle.std.specs.Prelude.{◌≡◌, ◌≤◌, [], ◌∷◌, None, Some, IfOk, OnOk, OnErr, MatchOption, vec_capacity, vec_len};
ghost use Rattle.ciel_table.specs.Changes.{waits_with, waits_without};
ghost use Rattle.ciel_table.specs.Seen.{latest};
ghost use Rattle.ciel_table.specs.Sound.{Rising};

use sky_base::at::At;
use sky_base::name::Name;
use sky_base::names::Names;
use sky_base::text::Memory;
use std::alloc::Global;
use std::marker::Model;

/// A saved wait of a task: its number, the place of the saved stack, the names that the task waits for there, and those
/// that the stack holds.
#[derive(Drop)]
pub struct Wait<P> {
    pub j: u32,
    pub place: P,
    pub refs: Names,
    pub holds: Names,
}

/// Saved waits of one task, in the order of saving: for each worker the last one there. Contracts see them as a list.
#[derive(Drop)]
pub struct Waits<P> {
    items: Vec<Wait<P>>,
}

impl<P> Model for Waits<P> {
    ghost use Rattle.std.specs.Prelude.{List};
    ghost use Rattle.ciel_table.specs.declared.wait.Wait.{Wait};

    ghost Value = { List (Wait P) };

    ghost view = { λ a. a.items.items };
}

/// The saved waits of the task of this name.
#[derive(Drop)]
pub struct Saves<P> {
    pub name: Name,
    pub waits: Waits<P>,
}

impl<P> Waits<P> {
    // None.
    pub(crate) fn new(alloc: Global) -> Waits<P>
        ensures { result ≡ [] }
    {
        Waits {
            items: Vec::new(alloc),
        }
    }

    // The one with the greatest number, which is the last one.
    pub(crate) fn latest(&self) -> Option<&Wait<P>>
        requires rising { Rising self.now }
        ensures { MatchOption result (latest self.now ≡ None) (λ w. latest self.now ≡ Some w.now) }
    {
        self.items.last()
    }
}

impl<P: At + Drop> Waits<P> {
    // Puts a wait at the end. An earlier one at its worker goes: both would be lost together. After `Memory` the list is as it was.
    pub(crate) fn add(&mut self, wait: Wait<P>) -> Result<(), Memory>
        ensures ok { OnOk result (self.new ≡ waits_with P.at wait self.old) }
        ensures err { OnErr result (self.new ≡ self.old) }
    {
        if self.items.reserve(1).is_err() {
            return Err(Memory);
        }
        take_away(&mut self.items, wait.place.worker());
        self.items.push_reserved(wait);
        Ok(())
    }

    // Takes the waits whose stack lies at a worker away.
    pub(crate) fn drop_worker(&mut self, worker: u32)
        ensures { self.new ≡ waits_without P.at worker self.old }
    {
        take_away(&mut self.items, worker);
    }
}

// Takes the waits whose stack lies at a worker off a list, which has as much room as before.
fn take_away<P: At + Drop>(waits: &mut Vec<Wait<P>>, worker: u32)
    ensures left { waits.new.items ≡ waits_without P.at worker waits.old.items }
    ensures fewer { vec_len waits.new ≤ vec_len waits.old }
    ensures room { vec_capacity waits.new ≡ vec_capacity waits.old }
{
    waits.retain(|wait| worker != wait.place.worker());
}

impl<P: At + Drop> Saves<P> {
    // The first saved wait of a task.
    pub(crate) fn first(alloc: Global, name: &Name, wait: Wait<P>) -> Result<Saves<P>, Memory>
        ensures { IfOk result (λ s. s ≡ record { name = name.now; waits = wait ∷ [] }) }
    {
        let mut waits = Waits::new(alloc);
        waits.add(wait)?;
        Ok(Saves { name: *name, waits })
    }
}
