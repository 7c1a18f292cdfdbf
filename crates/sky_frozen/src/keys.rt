// Names as the keys of a dictionary, so that one is found among many without a search through all of them.

ghost use Rattle.std.specs.Prelude.{◌≡◌, ◌⊎◌, IfOk, IsTrue, IsFalse, is_some};
ghost use Rattle.sky_base.specs.Op.{find};
ghost use Rattle.sky_base.specs.View.{pairs_of};
ghost use Rattle.sky_frozen.specs.Keys.{KeysAre, HasValue, AllIn, AllInEither, AllFound};

use sky_base::text::{Memory, Txt};
use sky_base::value::{Pair, Pairs, Value};
use std::alloc::Global;

/// A dictionary with these keys. The names that a function of a script uses rise, so each goes to the end.
pub(crate) fn keys_of(alloc: Global, names: &[Txt]) -> Result<Pairs, Memory>
    ensures { IfOk result (λ keys. KeysAre keys names.now) }
{
    let mut keys = Pairs::new(alloc);
    for name in names {
        keys.insert(name.share()?, Value::Null)?;
    }
    Ok(keys)
}

/// Whether the name is one of the keys.
pub(crate) fn has(keys: &Pairs, name: &Txt) -> bool
    ensures { result ≡ is_some (find name.now keys.now) }
{
    keys.find(name).is_some()
}

/// Whether each pair's key is one of these.
pub(crate) fn all_in(keys: &Pairs, pairs: &[Pair]) -> bool
    ensures yes { IsTrue result → AllIn keys.now (pairs_of pairs.now) }
    ensures no { IsFalse result → AllIn keys.now (pairs_of pairs.now) → ⊥ }
{
    for pair in pairs {
        if !has(keys, &pair.key) {
            return false;
        }
    }
    true
}

/// Whether each pair's key is one of these or of those.
pub(crate) fn all_in_either(own: &Pairs, uses: &Pairs, pairs: &[Pair]) -> bool
    ensures yes { IsTrue result → AllInEither own.now uses.now (pairs_of pairs.now) }
    ensures no { IsFalse result → AllInEither own.now uses.now (pairs_of pairs.now) → ⊥ }
{
    for pair in pairs {
        if !in_either(own, uses, &pair.key) {
            return false;
        }
    }
    true
}

// Whether the name is one of the keys here or there.
fn in_either(own: &Pairs, uses: &Pairs, name: &Txt) -> bool
    ensures yes { IsTrue result → HasValue own.now name.now ⊎ HasValue uses.now name.now }
    ensures no { IsFalse result → HasValue own.now name.now ⊎ HasValue uses.now name.now → ⊥ }
{
    has(own, name) || has(uses, name)
}

/// Whether each of these names is one of the keys.
pub(crate) fn all_found(keys: &Pairs, names: &[Txt]) -> bool
    ensures yes { IsTrue result → AllFound keys.now names.now }
    ensures no { IsFalse result → AllFound keys.now names.now → ⊥ }
{
    for name in names {
        if !has(keys, name) {
            return false;
        }
    }
    true
}
