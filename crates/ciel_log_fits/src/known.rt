//! Whether names have rows in a table once descriptions are learned in it, told before they are.

ghost use Rattle.std.specs.Prelude.{◌≡◌, ◌||◌, ℕ, List, IfOk, IsFalse, IsTrue, map, true};
ghost use Rattle.std.specs.BTreeSet.{contains};
ghost use Rattle.std.specs.List.{AllByRecursion};
ghost use Rattle.sky_base.specs.Name.{held_name};
ghost use Rattle.sky_base.specs.NameOrder.{name_cmp};
ghost use Rattle.sky_base.specs.ObjectView.{object_view};
ghost use Rattle.sky_base.specs.Res.{object_refs};
ghost use Rattle.sky_base.specs.Val.{same_text};
ghost use Rattle.sky_base.specs.View.{pairs_of, vals_of, view};
ghost use Rattle.ciel_journal.specs.Job.{Each};
ghost use Rattle.ciel_want.specs.Waited.{AllKnown};
ghost use Rattle.ciel_master_board.specs.Reports.{learned_all};
ghost use Rattle.ciel_master_board.specs.Board.{start_refs};
ghost use Rattle.sky_base.specs.declared.object.Named as rust;
ghost use Rattle.ciel_log_fits.specs.Known.{NamesIn, NamesInDesc, NamesInObject, NamesInPairs, NamesInVals, is_named, knows};

use ciel_table::table::Table;
use sky_base::at::At;
use sky_base::name::Name;
use sky_base::object::{Desc1, Named, Object};
use sky_base::text::Memory;
use sky_base::value::{Pair, Value};
use std::alloc::Global;
use std::collections::BTreeSet;
use std::marker::Model;

/// A table with descriptions that are to be learned in it. Contracts see the two.
#[derive(Drop)]
pub struct KnownAfter<'a, P: At> {
    table: &'a Table<P>,
    spawned: &'a [Named],
    // The names of those that are to be learned.
    names: BTreeSet<Name>,
}

impl<'a, P: At> Model for KnownAfter<'a, P> {
    ghost use Rattle.std.specs.BTreeSet.{contains};
    ghost use Rattle.std.specs.Coded.{codes};
    ghost use Rattle.std.specs.Prelude.{◌≡◌, ℕ, List};
    ghost use Rattle.sky_base.specs.Code.{val_code, vals_code, pairs_code};
    ghost use Rattle.sky_base.specs.NameOrder.{name_cmp};
    ghost use Rattle.ciel_log_fits.specs.Known.{AfterSeen, is_named};

    ghost Value = { AfterSeen P };

    ghost coded = { Prim.hlevel (codes, val_code, vals_code, pairs_code) };

    ghost view = { λ k. record { table = k.table.now; spawned = k.spawned.now } };

    ghost invariant = { λ k. (n : List ℕ) → contains name_cmp k.names n ≡ is_named n k.spawned.now };
}

impl<'a, P: At + Drop> KnownAfter<'a, P> {
    /// This table with these descriptions.
    ///
    /// Answers `Memory` for want of memory.
    pub fn new(
        alloc: Global,
        table: &'a Table<P>,
        spawned: &'a [Named],
    ) -> Result<KnownAfter<'a, P>, Memory>
        ensures table { IfOk result (λ k. k.table ≡ table.now) }
        ensures spawned { IfOk result (λ k. k.spawned ≡ spawned.now) }
    {
        let names = names_of(alloc, spawned)?;
        Ok(KnownAfter {
            table,
            spawned,
            names,
        })
    }

    /// Whether a row has the name, or one that is to be learned.
    fn has(&self, name: &Name) -> bool
        ensures { result ≡ knows self.now name.now }
    {
        self.table.find(name).is_some() || self.names.contains(name)
    }

    /// Whether each of these names has a row then.
    pub fn has_all(&self, names: &[Name]) -> bool
        ensures yes { IsTrue result → (digest : List ℕ → List ℕ) → AllKnown (learned_all digest self.now.spawned self.now.table) names.now }
        ensures no { IsFalse result → (digest : List ℕ → List ℕ) → AllKnown (learned_all digest self.now.spawned self.now.table) names.now → ⊥ }
    {
        in_names(self, names)
    }

    /// Whether each name that an object refers to has a row then.
    pub fn has_all_of(&self, object: &Object) -> bool
        ensures yes { IsTrue result → (digest : List ℕ → List ℕ)
            → AllKnown (learned_all digest self.now.spawned self.now.table) (map held_name (object_refs (object_view object.now))) }
        ensures no { IsFalse result → (digest : List ℕ → List ℕ)
            → AllKnown (learned_all digest self.now.spawned self.now.table) (map held_name (object_refs (object_view object.now))) → ⊥ }
    {
        in_object(self, object)
    }

    /// Whether each name that stands inside the descriptions which are to be learned has a row then.
    pub fn is_closed(&self) -> bool
        ensures yes { IsTrue result → (digest : List ℕ → List ℕ)
            → Each (λ (n : rust.Named). AllKnown (learned_all digest self.now.spawned self.now.table) (start_refs n.desc)) self.now.spawned }
        ensures no { IsFalse result → (digest : List ℕ → List ℕ)
            → Each (λ (n : rust.Named). AllKnown (learned_all digest self.now.spawned self.now.table) (start_refs n.desc)) self.now.spawned → ⊥ }
    {
        in_all(self, self.spawned)
    }
}

// The names of these.
fn names_of(alloc: Global, spawned: &[Named]) -> Result<BTreeSet<Name>, Memory>
    ensures { IfOk result (λ s. (n : List ℕ) → contains name_cmp s n ≡ is_named n spawned.now) }
{
    let mut names = BTreeSet::new(alloc);
    for named in spawned {
        add(&mut names, &named.name)?;
    }
    Ok(names)
}

// Puts a name there.
fn add(names: &mut BTreeSet<Name>, name: &Name) -> Result<(), Memory>
    ensures { IfOk result (λ _. (n : List ℕ) → contains name_cmp names.new n ≡ (same_text n name.now || contains name_cmp names.old n)) }
{
    match names.insert(*name) {
        Ok(_) => Ok(()),
        Err(_) => Err(Memory),
    }
}

// Whether each of these names has a row then.
fn in_names<P: At + Drop>(after: &KnownAfter<P>, names: &[Name]) -> bool
    ensures yes { IsTrue result → AllByRecursion (λ (n : List ℕ). knows after.now n ≡ true) names.now }
    ensures no { IsFalse result → AllByRecursion (λ (n : List ℕ). knows after.now n ≡ true) names.now → ⊥ }
{
    for name in names {
        if !after.has(name) {
            return false;
        }
    }
    true
}

// Whether each name that stands inside these descriptions has a row then.
fn in_all<P: At + Drop>(after: &KnownAfter<P>, spawned: &[Named]) -> bool
    ensures yes { IsTrue result → Each (λ (n : rust.Named). NamesInDesc (knows after.now) n.desc) spawned.now }
    ensures no { IsFalse result → Each (λ (n : rust.Named). NamesInDesc (knows after.now) n.desc) spawned.now → ⊥ }
{
    for named in spawned {
        if !in_desc(after, &named.desc) {
            return false;
        }
    }
    true
}

// Whether each name that stands inside a description has a row then.
fn in_desc<P: At + Drop>(after: &KnownAfter<P>, desc: &Desc1) -> bool
    ensures yes { IsTrue result → NamesInDesc (knows after.now) desc.now }
    ensures no { IsFalse result → NamesInDesc (knows after.now) desc.now → ⊥ }
{
    match desc {
        Desc1::Call { caught, args, .. } => {
            in_pairs(after, caught.as_slice()) && in_values(after, args.as_slice())
        }
        Desc1::Exec { args, .. } => in_value(after, args),
        Desc1::Input { .. } => true,
    }
}

// Whether each name in an object has a row then.
fn in_object<P: At + Drop>(after: &KnownAfter<P>, object: &Object) -> bool
    ensures yes { IsTrue result → NamesInObject (knows after.now) (object_view object.now) }
    ensures no { IsFalse result → NamesInObject (knows after.now) (object_view object.now) → ⊥ }
{
    match object {
        Object::Data(value) => in_value(after, value),
        Object::Bytes(_) | Object::Fault(_) => true,
    }
}

// Whether each name in the value has a row then.
#[cycle(names)]
fn in_value<P: At + Drop>(after: &KnownAfter<P>, value: &Value) -> bool
    ensures yes { IsTrue result → NamesIn (knows after.now) (view value.now) }
    ensures no { IsFalse result → NamesIn (knows after.now) (view value.now) → ⊥ }
{
    match value {
        Value::List(items) => in_values(after, items.as_slice()),
        Value::Dict(pairs) => in_pairs(after, pairs.as_slice()),
        Value::Fun { caught, .. } => in_pairs(after, caught.as_slice()),
        Value::Ref(name) => after.has(name),
        Value::Null | Value::Bool(_) | Value::Int(_) | Value::Text(_) => true,
    }
}

#[cycle(names)]
#[tactic(auto, using(sky_base::proofs::Values::inside))]
fn in_values<P: At + Drop>(after: &KnownAfter<P>, values: &[Value]) -> bool
    ensures yes { IsTrue result → NamesInVals (knows after.now) (vals_of values.now) }
    ensures no { IsFalse result → NamesInVals (knows after.now) (vals_of values.now) → ⊥ }
{
    for value in values {
        if !in_value(after, value) {
            return false;
        }
    }
    true
}

#[cycle(names)]
#[tactic(auto, using(sky_base::proofs::Values::inside))]
fn in_pairs<P: At + Drop>(after: &KnownAfter<P>, pairs: &[Pair]) -> bool
    ensures yes { IsTrue result → NamesInPairs (knows after.now) (pairs_of pairs.now) }
    ensures no { IsFalse result → NamesInPairs (knows after.now) (pairs_of pairs.now) → ⊥ }
{
    for pair in pairs {
        if !in_value(after, &pair.value) {
            return false;
        }
    }
    true
}
