//! What a value refers to, as far as it matters to a task that reads one thing. It takes no memory.

ghost use Rattle.std.specs.Prelude.{◌≡◌};
ghost use Rattle.sky_base.specs.Val.{pairs_refs, refs, vals_refs};
ghost use Rattle.sky_base.specs.View.{pairs_of, vals_of, view};
ghost use Rattle.ciel_want_ready.specs.Reading.{and_all, and_one, is_more};

use sky_base::name::Name;
use sky_base::value::{Pair, Value};

/// What is referred to.
#[derive(Clone, Copy)]
pub enum Reads {
    Nothing,
    /// One thing, once.
    One(Name),
    /// Several things, or one several times.
    More,
}

impl Reads {
    // One thing more.
    fn add(&mut self, name: &Name)
        ensures { self.new ≡ and_one self.old name.now }
    {
        match self {
            Reads::Nothing => *self = Reads::One(*name),
            _ => *self = Reads::More,
        }
    }

    // Whether it is more than one thing once.
    fn is_more(&self) -> bool
        ensures { result ≡ is_more self.now }
    {
        match self {
            Reads::More => true,
            _ => false,
        }
    }
}

/// What a value refers to.
pub(crate) fn what_is_read(value: &Value) -> Reads
    ensures { result ≡ and_all Reads.Nothing (refs (view value.now)) }
{
    let mut found = Reads::Nothing;
    add_all(value, &mut found);
    found
}

// Adds what a value refers to, up to the second.
#[cycle(add_all)]
fn add_all(value: &Value, found: &mut Reads)
    ensures { found.new ≡ and_all found.old (refs (view value.now)) }
{
    match value {
        Value::List(values) => add_values(values.as_slice(), found),
        Value::Dict(pairs) => add_pairs(pairs.as_slice(), found),
        Value::Fun { caught, .. } => add_pairs(caught.as_slice(), found),
        Value::Ref(name) => found.add(name),
        _ => {}
    }
}

#[cycle(add_all)]
#[tactic(auto, using(sky_base::proofs::Values::inside))]
fn add_values(values: &[Value], found: &mut Reads)
    ensures { found.new ≡ and_all found.old (vals_refs (vals_of values.now)) }
{
    for value in values {
        if found.is_more() {
            return;
        }
        add_all(value, found);
    }
}

#[cycle(add_all)]
#[tactic(auto, using(sky_base::proofs::Values::inside))]
fn add_pairs(pairs: &[Pair], found: &mut Reads)
    ensures { found.new ≡ and_all found.old (pairs_refs (pairs_of pairs.now)) }
{
    for pair in pairs {
        if found.is_more() {
            return;
        }
        add_all(&pair.value, found);
    }
}
