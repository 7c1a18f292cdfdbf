//! Whether the executors' outputs of a list stand there with all outputs of their tasks.
//!
//! Each output must have the one that comes next in its task, and the last one the first: then all of them are there. So each is looked
//! up once, however many outputs its task has.

ghost use Rattle.std.specs.Prelude.{◌≡◌, ◌<◌, ℕ, IfOk, IsFalse, IsTrue, List, map};
ghost use Rattle.sky_base.specs.Names.{is_among};
ghost use Rattle.sky_base.specs.ObjectView.{desc_view};
ghost use Rattle.ciel_name.specs.Laws.{SpelledDesc};
ghost use Rattle.ciel_journal.specs.Job.{Each};
ghost use Rattle.ciel_master_safe.specs.Reports.{StandsWhole};
ghost use Rattle.ciel_master_board.specs.Reports.{named_view};
ghost use Rattle.ciel_log_fits.specs.Whole.{NextStands, is_output_in, next_index, with_output};

use crate::spellings::Spellings;
use ciel_name::object::canon;
use sky_base::object::{Desc1, Named};
use sky_base::text::Memory;
use std::alloc::Global;

/// Whether each executor's output in the list stands there with all outputs of its task.
///
/// Answers `Memory` for want of memory.
pub fn stands_whole(alloc: Global, spawned: &[Named]) -> Result<bool, Memory>
    requires spelled { Each (λ (n : Named). SpelledDesc (named_view n)) spawned.now }
    ensures yes { IfOk result (λ b. IsTrue b
        → Each (λ (n : Named). StandsWhole (map named_view spawned.now) (named_view n)) spawned.now) }
    ensures no { IfOk result (λ b. IsFalse b
        → Each (λ (n : Named). StandsWhole (map named_view spawned.now) (named_view n)) spawned.now → ⊥) }
{
    let outputs = spellings_of(alloc, spawned)?;
    let whole = all_next_stand(alloc, &outputs, spawned)?;
    Ok(whole)
}

/// The canonical bytes of the executors' outputs.
fn spellings_of(alloc: Global, spawned: &[Named]) -> Result<Spellings, Memory>
    ensures { IfOk result (λ s. (x : List ℕ) → is_among x s ≡ is_output_in x (map named_view spawned.now)) }
{
    let mut outputs = Spellings::new(alloc);
    for named in spawned {
        add(alloc, &mut outputs, &named.desc)?;
    }
    Ok(outputs)
}

/// Puts the canonical bytes of a description there, if it is an executor's output.
fn add(alloc: Global, outputs: &mut Spellings, desc: &Desc1) -> Result<(), Memory>
    ensures { IfOk result (λ _. (x : List ℕ) → is_among x outputs.new ≡ with_output x (desc_view desc.now) (is_among x outputs.old)) }
{
    match desc {
        Desc1::Exec { .. } => {
            let spelled = canon(alloc, desc)?;
            outputs.put(spelled)?;
            Ok(())
        }
        Desc1::Call { .. } | Desc1::Input { .. } => Ok(()),
    }
}

/// Whether each output has its next one among these.
fn all_next_stand(alloc: Global, outputs: &Spellings, spawned: &[Named]) -> Result<bool, Memory>
    ensures yes { IfOk result (λ b. IsTrue b → Each (λ (n : Named). NextStands outputs.now (named_view n)) spawned.now) }
    ensures no { IfOk result (λ b. IsFalse b → Each (λ (n : Named). NextStands outputs.now (named_view n)) spawned.now → ⊥) }
{
    for named in spawned {
        if !next_stands(alloc, outputs, &named.desc)? {
            return Ok(false);
        }
    }
    Ok(true)
}

/// Whether the index of an output is one of its task, and the next one is among these.
fn next_stands(alloc: Global, outputs: &Spellings, desc: &Desc1) -> Result<bool, Memory>
    ensures yes { IfOk result (λ b. IsTrue b → NextStands outputs.now (desc_view desc.now)) }
    ensures no { IfOk result (λ b. IsFalse b → NextStands outputs.now (desc_view desc.now) → ⊥) }
{
    match desc {
        Desc1::Exec {
            executor,
            args,
            outputs: count,
            index,
        } => {
            if *index >= *count {
                return Ok(false);
            }
            let next = Desc1::Exec {
                executor: executor.share()?,
                args: args.copy()?,
                outputs: *count,
                index: next_index(*count, *index),
            };
            let spelled = canon(alloc, &next)?;
            Ok(outputs.has(spelled))
        }
        Desc1::Call { .. } | Desc1::Input { .. } => Ok(true),
    }
}

/// The index that comes next among so many, the first one behind the last.
fn next_index(count: u32, index: u32) -> u32
    requires { index < count }
    ensures { result ≡ next_index count index }
{
    if index + 1 < count { index + 1 } else { 0 }
}
