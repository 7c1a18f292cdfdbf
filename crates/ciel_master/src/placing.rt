//! Places of what was made and copied.

ghost use Rattle.std.specs.Prelude.{◌≡◌, ◌++◌, ◌∷◌, [], IfOk, OnErr, OnOk, map};
ghost use Rattle.ciel_master_board.specs.Moves.{with_copies, with_outputs};
ghost use Rattle.ciel_master_board.specs.Reports.{copy_names, made_keys};
ghost use Rattle.ciel_journal.specs.Job.{Each};
ghost use Rattle.ciel_master_bring.specs.Brings.{worker_of};
ghost use Rattle.ciel_task_order.specs.Views.{copies_view, output_view};
ghost use Rattle.ciel_want_ready.specs.Seen.{with_table};
ghost use Rattle.ciel_table.specs.Changes.{placed};
ghost use Rattle.ciel_table.specs.Seen.{Known};
ghost use Rattle.ciel_table.specs.Sound.{Here};

use ciel_store::shelves::Place;
use ciel_task_order::block::{Block, Held, Spot};
use ciel_task_order::report::Made;
use ciel_want_ready::ready::Ready;
use sky_base::name::Name;
use sky_base::names::Names;
use sky_base::text::Memory;
use std::alloc::Global;

/// Places the outputs of a task.
pub(crate) fn place_outputs(ready: &mut Ready<Place<Block>>, made: &[Made]) -> Result<(), Memory>
    requires known { Each (λ m. Known ready.old.table m.name × Here ready.old.table.gone (worker_of m.place)) made.now }
    ensures placed { OnOk result (ready.new ≡ with_table ready.old (with_outputs (map output_view made.now) ready.old.table)) }
{
    for i in 0..made.len() {
        let output = &made[i];
        ready.add_place(&output.name, output.place.share())?;
    }
    Ok(())
}

/// Places one copy; what isn't at a shelf is none.
fn place_copy(ready: &mut Ready<Place<Block>>, copy: &Held) -> Result<(), Memory>
    requires known { Each (λ c. Known ready.old.table c.name × Here ready.old.table.gone (worker_of c.place)) (copies_view (copy.now ∷ [])) }
    ensures placed { OnOk result (ready.new ≡ with_table ready.old (with_copies (copies_view (copy.now ∷ [])) ready.old.table)) }
{
    match &copy.at {
        Spot::Shelf(place) => {
            ready.add_place(&copy.name, place.share())?;
            Ok(())
        }
        Spot::Input(_) => Ok(()),
    }
}

/// Places what was copied.
pub(crate) fn place_copies(ready: &mut Ready<Place<Block>>, copied: &[Held]) -> Result<(), Memory>
    requires known { Each (λ c. Known ready.old.table c.name × Here ready.old.table.gone (worker_of c.place)) (copies_view copied.now) }
    ensures placed { OnOk result (ready.new ≡ with_table ready.old (with_copies (copies_view copied.now) ready.old.table)) }
{
    for i in 0..copied.len() {
        place_copy(ready, &copied[i])?;
    }
    Ok(())
}

/// The outputs as the journal writes them.
pub(crate) fn keys_of(alloc: Global, made: &[Made]) -> Result<Vec<(Name, [u8; 20])>, Memory>
    ensures { IfOk result (λ ks. ks.items ≡ made_keys (map output_view made.now)) }
{
    let mut keys = Vec::new(alloc);
    for i in 0..made.len() {
        let output = &made[i];
        if keys.push((output.name, output.mark)).is_err() {
            return Err(Memory);
        }
    }
    Ok(keys)
}

/// Puts the name of a copy at the end.
fn push_copy(names: &mut Names, copy: &Held) -> Result<(), Memory>
    ensures { OnOk result (names.new ≡ names.old ++ copy_names (copies_view (copy.now ∷ []))) }
{
    match &copy.at {
        Spot::Shelf(_) => {
            names.push(copy.name)?;
            Ok(())
        }
        Spot::Input(_) => Ok(()),
    }
}

/// The names of what was copied.
pub(crate) fn names_of(alloc: Global, copied: &[Held]) -> Result<Names, Memory>
    ensures { IfOk result (λ ns. ns ≡ copy_names (copies_view copied.now)) }
{
    let mut names = Names::new(alloc);
    for i in 0..copied.len() {
        push_copy(&mut names, &copied[i])?;
    }
    Ok(names)
}
