//! A report's spawned list, learned in order.

ghost use Rattle.std.specs.Prelude.{◌≡◌, ℕ, Ok, IfErr, OnErr, OnOk};
ghost use Rattle.ciel_master_board.specs.Reports.{AllLearned, learned_all};
ghost use Rattle.ciel_master.specs.Refusals.{FirstStops, Stops, StopsAt, UnlessMemory, learned_before};
ghost use Rattle.ciel_master.specs.Taking.{LearnedFor, learned_for};
ghost use Rattle.ciel_want_ready.specs.Seen.{with_table};
ghost use Rattle.ciel_table.specs.Learning.{learn_answer, learned};

use crate::stop::Stop;
use ciel_name::name::Namer;
use ciel_store::shelves::Place;
use ciel_table::refusal::Learn;
use ciel_task_order::block::Block;
use ciel_task_order::report::End;
use ciel_want_ready::ready::Ready;
use sky_base::object::Named;

/// Why a description isn't learned.
fn why(refusal: Learn, given: &Named) -> Stop
    ensures { Stops refusal given.now result }
{
    match refusal {
        Learn::Clash { kept, given } => Stop::NameClash { kept, given },
        Learn::Full { held } => match given.desc.copy() {
            Ok(given) => Stop::TooMany { held, given },
            Err(_) => Stop::Memory,
        },
        Learn::Memory => Stop::Memory,
    }
}

/// Learns one description. A refusal changes nothing.
fn learn<N: Namer>(ready: &mut Ready<Place<Block>>, namer: &N, named: &Named) -> Result<(), Stop>
    ensures learned { OnOk result (ready.new ≡ with_table ready.old (learned (N.digest namer.now) named.now ready.old.table)) }
    ensures answer { OnOk result ((id : ℕ) × (learn_answer named.now ready.old.table ≡ Ok id)) }
    ensures refused { IfErr result (λ e. StopsAt named.now ready.old.table e) }
    ensures kept { OnErr result (ready.new ≡ ready.old) }
{
    match ready.learn(named, namer) {
        Ok(_) => Ok(()),
        Err(refusal) => Err(why(refusal, named)),
    }
}

/// Learns a list in order, up to the first that is refused.
fn learn_all<N: Namer>(
    ready: &mut Ready<Place<Block>>,
    namer: &N,
    spawned: &[Named],
) -> Result<(), Stop>
    ensures learned { OnOk result (ready.new ≡ with_table ready.old (learned_all (N.digest namer.now) spawned.now ready.old.table)) }
    ensures all { OnOk result (AllLearned (N.digest namer.now) spawned.now ready.old.table) }
    ensures refused { IfErr result (λ e. FirstStops (N.digest namer.now) spawned.now ready.old.table e) }
    ensures before { IfErr result (λ e. UnlessMemory e
        (ready.new ≡ with_table ready.old (learned_before (N.digest namer.now) spawned.now ready.old.table))) }
{
    for i in 0..spawned.len() {
        learn(ready, namer, &spawned[i])?;
    }
    Ok(())
}

/// Learns what a report spawned; where it tells that something was missing, nothing.
pub(crate) fn learn_for<N: Namer>(
    ready: &mut Ready<Place<Block>>,
    namer: &N,
    spawned: &[Named],
    end: &End,
) -> Result<(), Stop>
    ensures learned { OnOk result (ready.new ≡ with_table ready.old (learned_for (N.digest namer.now) end.now spawned.now ready.old.table)) }
    ensures all { OnOk result (LearnedFor (N.digest namer.now) end.now spawned.now ready.old.table) }
    ensures refused { IfErr result (λ e. FirstStops (N.digest namer.now) spawned.now ready.old.table e) }
    ensures before { IfErr result (λ e. UnlessMemory e
        (ready.new ≡ with_table ready.old (learned_before (N.digest namer.now) spawned.now ready.old.table))) }
{
    match end {
        End::Missing { .. } => Ok(()),
        End::Made(_) | End::Saved { .. } | End::Shown(_) => {
            match learn_all(ready, namer, spawned) {
                Ok(()) => Ok(()),
                Err(stop) => Err(stop),
            }
        }
    }
}
