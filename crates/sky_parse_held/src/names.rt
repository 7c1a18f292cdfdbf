// Names in ordered sets: which stand twice, and which a body uses.

ghost use Rattle.std.specs.Prelude.{◌≡◌, ◌==◌, ℕ, [], List, IfOk};
ghost use Rattle.std.proofs.Common.{rules};
ghost use Rattle.std.specs.Cmp.{partial_order_from_own_ties};
ghost use Rattle.std.specs.Cmp.Rules.{comparing};
ghost use Rattle.std.specs.Cmp.Lexicographic.{pointwise};
ghost use Rattle.std.specs.Ordering.{as_partial_cmp};
ghost use Rattle.std.specs.BTreeSet.{insert_key};
ghost use Rattle.sky_base.specs.Eval.{is_one_of};
ghost use Rattle.sky_base.specs.TreeView.{at};
ghost use Rattle.sky_parse_grammar.specs.Lifted.{text_cmp, param_names, uses_of};
ghost use Rattle.sky_parse_grammar.specs.Names.{at_twice, first_of, same_params};
ghost use Rattle.sky_parse_grammar.specs.Nesting.{place_of};
ghost use Rattle.sky_parse_held.specs.Params.{params_view};

use crate::made::Parameter;
use sky_base::script::Texts;
use sky_base::text::{Memory, Txt};
use std::alloc::Global;
use std::cmp::Ordering;
use std::collections::BTreeSet;
use std::marker::Model;

/// A name as a key, by its bytes.
#[derive(Drop)]
struct Key {
    text: Txt,
}

impl Model for Key {
    ghost use Rattle.std.specs.Prelude.{List, ℕ};

    ghost Value = { List ℕ };

    ghost view = { λ k. k.text };
}

impl PartialEq for Key {
    ghost eq = { pointwise ◌==◌ };

    ghost laws = { Prim.search (comparing, rules) };

    fn eq(&self, other: &Key) -> bool {
        self.text.as_str() == other.text.as_str()
    }
}

impl Eq for Key {
    ghost laws = { Prim.search (comparing, rules) };
}

impl Ord for Key {
    ghost cmp = { text_cmp };

    ghost total = { Prim.search (comparing, rules) };

    ghost matches_partial_cmp = { Prim.search (comparing, rules) };

    ghost matches_eq = { Prim.search (comparing, rules) };

    fn cmp(&self, other: &Key) -> Ordering {
        self.text.as_str().cmp(other.text.as_str())
    }
}

impl PartialOrd for Key {
    ghost partial_cmp = { as_partial_cmp text_cmp };

    ghost laws = { partial_order_from_own_ties (Prim.search (comparing, rules)) (Prim.search (comparing, rules)) };

    fn partial_cmp(&self, other: &Key) -> Option<Ordering> {
        Some(self.cmp(other))
    }
}

/// Names, each once.
#[derive(Drop)]
pub struct Known {
    keys: BTreeSet<Key>,
}

impl Model for Known {
    ghost use Rattle.std.specs.Prelude.{List, ℕ};

    ghost Value = { List (List ℕ) };

    ghost view = { λ k. k.keys.keys };
}

impl Known {
    /// None yet.
    pub fn new(alloc: Global) -> Known
        ensures { result ≡ [] }
    {
        Known {
            keys: BTreeSet::new(alloc),
        }
    }

    /// Whether the name is one of these.
    pub fn has(&self, name: &Txt) -> Result<bool, Memory>
        ensures { IfOk result (λ b. b ≡ is_one_of name.now self.now) }
    {
        let key = Key {
            text: name.share()?,
        };
        Ok(self.keys.contains(&key))
    }

    /// Puts the name among these; whether it was there.
    pub fn put(&mut self, name: &Txt) -> Result<bool, Memory>
        ensures was { IfOk result (λ b. b ≡ is_one_of name.now self.old) }
        ensures keys { IfOk result (λ b. self.new ≡ insert_key text_cmp self.old name.now) }
    {
        let key = Key {
            text: name.share()?,
        };
        let Ok(added) = self.keys.insert(key) else {
            return Err(Memory)
        };
        Ok(!added)
    }

    /// The names, rising.
    pub fn into_texts(self, alloc: Global) -> Result<Texts, Memory>
        ensures { IfOk result (λ x. x ≡ self) }
    {
        let mut items = Vec::new(alloc);
        let mut keys = self.keys;
        while let Some(key) = keys.pop_first() {
            let Ok(()) = items.push(key.text) else {
                return Err(Memory)
            };
        }
        Ok(Texts::of(items))
    }
}

/// The names of parameters, and the place of the first that an earlier one has.
pub fn parameters(
    alloc: Global,
    params: &[Parameter],
) -> Result<(Texts, Option<(u32, u32)>), Memory>
    ensures names { IfOk result (λ x. x.0 ≡ param_names (params_view params.now)) }
    ensures same { IfOk result (λ x. place_of x.1 ≡ same_params [] (params_view params.now)) }
{
    let mut items = Vec::new(alloc);
    let mut known = Known::new(alloc);
    let mut same = None;
    for param in params {
        let twice = known.put(&param.name)?;
        same = noted(same, twice, param.line, param.col);
        let Ok(()) = items.push(param.name.share()?) else {
            return Err(Memory)
        };
    }
    Ok((Texts::of(items), same))
}

/// A place that was found, else this one, if its name stands twice.
pub fn noted(found: Option<(u32, u32)>, twice: bool, line: u32, col: u32) -> Option<(u32, u32)>
    ensures { place_of result ≡ first_of (place_of found) (at_twice twice (at line col)) }
{
    match found {
        Some(place) => Some(place),
        None => if twice { Some((line, col)) } else { None },
    }
}

/// These names, each once.
fn all_of(alloc: Global, names: &[Txt]) -> Result<Known, Memory>
    ensures { IfOk result (λ k. (x : List ℕ) → is_one_of x k ≡ is_one_of x names.now) }
{
    let mut known = Known::new(alloc);
    for name in names {
        known.put(name)?;
    }
    Ok(known)
}

/// The names that are none of these, each once.
fn others(alloc: Global, own: &Known, names: &[Txt]) -> Result<Known, Memory>
    ensures { IfOk result (λ k. k ≡ uses_of own.now names.now) }
{
    let mut used = Known::new(alloc);
    for name in names {
        if !own.has(name)? {
            used.put(name)?;
        }
    }
    Ok(used)
}

/// The names that a body uses, each once and rising: those that stand in it without the parameters.
pub fn uses(alloc: Global, params: &[Txt], names: &[Txt]) -> Result<Texts, Memory>
    ensures { IfOk result (λ x. x ≡ uses_of params.now names.now) }
{
    let own = all_of(alloc, params)?;
    others(alloc, &own, names)?.into_texts(alloc)
}
