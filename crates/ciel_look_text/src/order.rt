//! Orders in lines of text: where each was given, and how it ended.

ghost use Rattle.std.specs.Prelude.{◌≡◌, ◌++◌, IfOk, codes, length};
ghost use Rattle.ciel_look_told.specs.View.{outcome_view};
ghost use Rattle.ciel_look_words.specs.Words.{digits};
ghost use Rattle.ciel_look_tasks.specs.Known.{knowns};
ghost use Rattle.ciel_look_tasks.specs.SceneView.{end_view, order_view, waits_of};
ghost use Rattle.ciel_look_tasks.specs.View.{start_view};
ghost use Rattle.ciel_look_text.specs.Says.{Says};
ghost use Rattle.ciel_look_text.specs.Text.{close_said, from_said, order_said, outcome_said, several, start_said, total};
ghost use Rattle.ciel_look_text.specs.Words.{counted, row};

use crate::label::{say, say_count, say_digits, say_lead, say_number, say_row, say_with};
use ciel_look_shown::plain::Plain;
use ciel_look_tasks::scene::{End, How, Run, Scene};
use ciel_look_told::told::Outcome;
use sky_base::name::Name;
use sky_base::text::Memory;
use std::alloc::Global;

/// Puts an order: its number, its worker, and how it ended.
pub fn say_order(alloc: Global, line: &mut Plain, scene: &Scene, run: &Run) -> Result<(), Memory>
    ensures said { IfOk result (λ _. Says line.old (order_said (knowns scene.now.known.all.items) (order_view run.now)) line.new) }
{
    say_start(line, run)?;
    say_close(alloc, line, scene, &run.end)?;
    Ok(())
}

/// Puts a start: its number and its worker.
pub fn say_start(line: &mut Plain, run: &Run) -> Result<(), Memory>
    ensures said { IfOk result (λ _. Says line.old (start_said run.now.again (start_view run.now)) line.new) }
{
    say_lead(line, run.again, "again start ", "start ")?;
    say_number(line, run.number)?;
    say_with(line, " at worker ", run.worker as u64)?;
    say_from(line, run.from)?;
    Ok(())
}

/// Puts the wait from which an order goes on, if there is one.
fn say_from(line: &mut Plain, from: u32) -> Result<(), Memory>
    ensures said { IfOk result (λ _. Says line.old (from_said from) line.new) }
{
    if from == 0 {
        return Ok(());
    }
    say_with(line, " from wait ", from as u64)?;
    Ok(())
}

/// Puts how an order ended.
fn say_close(
    alloc: Global,
    line: &mut Plain,
    scene: &Scene,
    end: &Option<End>,
) -> Result<(), Memory>
    ensures said { IfOk result (λ _. Says line.old (close_said (knowns scene.now.known.all.items) (end_view end.now)) line.new) }
{
    match end {
        None => {
            say(line, ", still out")?;
            Ok(())
        }
        Some(end) => match &end.how {
            How::Lost { loss: _ } => {
                say(line, ", lost with its worker")?;
                Ok(())
            }
            How::Told { outcome, made: _ } => {
                say_outcome(alloc, line, scene, outcome)?;
                Ok(())
            }
        },
    }
}

/// Puts how an order ended, as its report tells.
fn say_outcome(
    alloc: Global,
    line: &mut Plain,
    scene: &Scene,
    outcome: &Outcome,
) -> Result<(), Memory>
    ensures said { IfOk result (λ _. Says line.old
        (outcome_said (knowns scene.now.known.all.items) (outcome_view outcome.now) (waits_of outcome.now)) line.new) }
{
    match outcome {
        Outcome::Made(weights) => {
            say_made(line, weights.as_slice())?;
            Ok(())
        }
        Outcome::Saved {
            j: _,
            weight: _,
            waits,
        } => {
            say_waits(alloc, line, scene, waits.as_slice())?;
            Ok(())
        }
        Outcome::Answer(weight) => {
            say_answer(line, *weight)?;
            Ok(())
        }
        Outcome::Fault(_) => {
            say(line, ", shows a fault")?;
            Ok(())
        }
        Outcome::Missing { name, loss: _ } => {
            say_missing(alloc, line, name)?;
            Ok(())
        }
    }
}

/// Puts how many bytes an order made.
fn say_made(line: &mut Plain, weights: &[usize]) -> Result<(), Memory>
    ensures said { IfOk result (λ _. Says line.old (codes ", made "
        ++ (several (length weights.now) ++ counted (total weights.now) (codes " byte") (codes " bytes"))) line.new) }
{
    say(line, ", made ")?;
    say_several(line, weights.len())?;
    say_count(line, total(weights) as u64, " byte", " bytes")?;
    Ok(())
}

/// Puts how many objects there are, where there are several.
fn say_several(line: &mut Plain, count: usize) -> Result<(), Memory>
    ensures said { IfOk result (λ _. Says line.old (several count) line.new) }
{
    if count < 2 {
        return Ok(());
    }
    say_count(line, count as u64, " object of ", " objects of ")?;
    Ok(())
}

fn say_waits(alloc: Global, line: &mut Plain, scene: &Scene, names: &[Name]) -> Result<(), Memory>
    ensures said { IfOk result (λ _. Says line.old (codes ", waits for " ++ row (knowns scene.now.known.all.items) names.now) line.new) }
{
    say(line, ", waits for ")?;
    say_row(alloc, line, scene, names)?;
    Ok(())
}

fn say_answer(line: &mut Plain, weight: usize) -> Result<(), Memory>
    ensures said { IfOk result (λ _. Says line.old (codes ", shows " ++ counted weight (codes " byte") (codes " bytes")) line.new) }
{
    say(line, ", shows ")?;
    say_count(line, weight as u64, " byte", " bytes")?;
    Ok(())
}

fn say_missing(alloc: Global, line: &mut Plain, name: &Name) -> Result<(), Memory>
    ensures said { IfOk result (λ _. Says line.old (codes ", missed " ++ digits name.now) line.new) }
{
    say(line, ", missed ")?;
    say_digits(alloc, line, name)?;
    Ok(())
}

/// How many bytes these come to, as far as the number goes.
pub fn total(weights: &[usize]) -> usize
    ensures { result ≡ total weights.now }
{
    let mut sum: usize = 0;
    for weight in weights {
        sum = sum.saturating_add(*weight);
    }
    sum
}
