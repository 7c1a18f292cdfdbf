// The objects that a wave was given, found by the names that it waited for.

ghost use Rattle.std.specs.Prelude.{◌≡◌, IfOk, List, map, ℕ};
ghost use Rattle.sky_base.specs.Names.{known_of};
ghost use Rattle.sky_base.specs.ObjectView.{object_view};
ghost use Rattle.sky_base.specs.Val.{same_text};
ghost use Rattle.sky_base_law.specs.Tasks.{Each};
ghost use Rattle.sky_base_known.specs.Known.{KeptObject};
ghost use Rattle.sky_machine_show.specs.Given.{given_for, or_here, place_at};

use sky_base::name::Name;
use sky_base::object::Object;
use sky_base::text::Memory;
use sky_base_waves::known::Known;
use std::alloc::Global;
use std::collections::BTreeMap;
use std::marker::Model;

/// Objects within the limits, in the order of the names that they are given for. Contracts see it as the references with these names,
/// and the objects.
#[derive(Drop)]
pub struct Given<'a> {
    names: &'a [Name],
    objects: &'a [Object],
    // The place of each name.
    places: BTreeMap<Name, usize>,
}

impl<'a> Model for Given<'a> {
    ghost use Rattle.std.specs.Prelude.{List, map};
    ghost use Rattle.sky_base.specs.Names.{known_of};
    ghost use Rattle.sky_base.specs.ObjectView.{object_view};
    ghost use Rattle.sky_base_law.specs.Tasks.{Each};
    ghost use Rattle.sky_base_known.specs.Known.{KeptObject};
    ghost use Rattle.sky_base_known.specs.Walk.{Obj, Row};
    ghost use Rattle.sky_machine_show.specs.Given.{FindsEach, given_code};

    ghost Value = { List Row × List Obj };

    ghost coded = { given_code };

    ghost view = { λ g. (known_of g.names.now, map object_view g.objects.now) };

    ghost invariant = { λ g. FindsEach g.places g.names.now × Each (λ o. KeptObject (object_view o)) g.objects.now };
}

impl<'a> Given<'a> {
    /// These objects for these names, in their order.
    pub fn new(alloc: Global, names: &'a [Name], objects: &'a [Object]) -> Result<Given<'a>, Memory>
        requires { Each (λ o. KeptObject (object_view o)) objects.now }
        ensures { IfOk result (λ g. g ≡ (known_of names.now, map object_view objects.now)) }
    {
        let mut places = BTreeMap::new(alloc);
        for (place, name) in names.iter().enumerate() {
            add(&mut places, name, place)?;
        }
        Ok(Given {
            names,
            objects,
            places,
        })
    }
}

impl<'a> Known for Given<'a> {
    ghost knows = { λ g d. given_for g.0 g.1 d };

    fn object(&self, name: &Name) -> Option<&Object> {
        match self.places.get(name) {
            Some(place) => match self.objects.get(*place) {
                Some(object) => Some(object),
                None => None,
            },
            None => None,
        }
    }
}

// Puts the place of a name, where it has none so far.
fn add(places: &mut BTreeMap<Name, usize>, name: &Name, place: usize) -> Result<(), Memory>
    ensures { IfOk result (λ _. (x : List ℕ) → place_at places.new x ≡ or_here (place_at places.old x) (same_text x name.now) place) }
{
    if places.contains_key(name) {
        return Ok(());
    }
    match places.insert(*name, place) {
        Ok(_) => Ok(()),
        Err(_) => Err(Memory),
    }
}
