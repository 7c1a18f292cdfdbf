//! What a run comes to, in a line of text.

ghost use Rattle.std.specs.Prelude.{◌≡◌, ◌≤◌, ◌++◌, IfOk, codes, cond, length, map};
ghost use Rattle.std.specs.List.{filter, sum};
ghost use Rattle.ciel_look_shown.specs.Plain.{shown};
ghost use Rattle.ciel_look_tasks.specs.SceneView.{end_view, order_view, scene_view, waits_of};
ghost use Rattle.ciel_look_tasks.specs.Seen.{told};
ghost use Rattle.ciel_look_told.specs.View.{outcome_view};
ghost use Rattle.ciel_look_text.specs.Says.{Says};
ghost use Rattle.ciel_look_text.specs.Text.{capped, is_again, made_by, made_of, sum_line};
ghost use Rattle.ciel_look_text.specs.Words.{counted};

use crate::label::{say, say_count};
use crate::order::total;
use ciel_look_shown::plain::Plain;
use ciel_look_tasks::scene::{End, How, Run, Scene};
use ciel_look_told::told::Outcome;
use sky_base::text::Memory;
use std::alloc::Global;

/// What it all comes to.
pub fn sum_line(alloc: Global, scene: &Scene) -> Result<Plain, Memory>
    ensures line { IfOk result (λ l. l ≡ shown (sum_line (scene_view scene.now))) }
{
    let mut line = Plain::new(alloc);
    let starts = scene.runs.len();
    let tasks = scene.roll.tasks.len();
    let again = again_of(scene.runs.as_slice());
    let losses = scene.losses.len();
    let copies = scene.copies.len();
    let bytes = bytes_of(scene.runs.as_slice());
    say_starts(&mut line, starts, tasks)?;
    say_rest(&mut line, again, losses, copies, bytes)?;
    Ok(line)
}

/// Puts how often a task was begun again, how many losses and copies there were, and how many bytes were made.
fn say_rest(
    line: &mut Plain,
    again: usize,
    losses: usize,
    copies: usize,
    bytes: usize,
) -> Result<(), Memory>
    ensures said { IfOk result (λ _. Says line.old (counted again (codes " begun again, ") (codes " begun again, ")
        ++ (counted losses (codes " loss, ") (codes " losses, ")
        ++ (counted copies (codes " copy, ") (codes " copies, ") ++ counted bytes (codes " byte made") (codes " bytes made")))) line.new) }
{
    say_count(line, again as u64, " begun again, ", " begun again, ")?;
    say_count(line, losses as u64, " loss, ", " losses, ")?;
    say_count(line, copies as u64, " copy, ", " copies, ")?;
    say_count(line, bytes as u64, " byte made", " bytes made")?;
    Ok(())
}

/// Puts how many starts and tasks there were.
fn say_starts(line: &mut Plain, starts: usize, tasks: usize) -> Result<(), Memory>
    ensures said { IfOk result (λ _. Says line.old (counted starts (codes " start") (codes " starts")
        ++ (codes " of " ++ counted tasks (codes " task, ") (codes " tasks, "))) line.new) }
{
    say_count(line, starts as u64, " start", " starts")?;
    say(line, " of ")?;
    say_count(line, tasks as u64, " task, ", " tasks, ")?;
    Ok(())
}

/// How many orders began a task again.
fn again_of(runs: &[Run]) -> usize
    ensures { result ≡ length (filter is_again (map order_view runs.now)) }
{
    let mut again: usize = 0;
    for run in runs {
        again += one_if(run.again);
    }
    again
}

/// One, or nothing.
fn one_if(is: bool) -> usize
    ensures value { result ≡ cond is 1 0 }
    ensures most { result ≤ 1 }
{
    if is { 1 } else { 0 }
}

/// How many bytes the orders made, as far as the number goes.
fn bytes_of(runs: &[Run]) -> usize
    ensures { result ≡ capped (sum (map made_of (map order_view runs.now))) }
{
    let mut bytes: usize = 0;
    for run in runs {
        bytes = bytes.saturating_add(made_of(&run.end));
    }
    bytes
}

/// How many bytes an order made that ended so.
fn made_of(end: &Option<End>) -> usize
    ensures { result ≡ made_by (end_view end.now) }
{
    match end {
        None => 0,
        Some(end) => match &end.how {
            How::Lost { loss: _ } => 0,
            How::Told { outcome, made: _ } => made_by(outcome),
        },
    }
}

fn made_by(outcome: &Outcome) -> usize
    ensures { result ≡ made_by (told (outcome_view outcome.now) (waits_of outcome.now)) }
{
    match outcome {
        Outcome::Made(weights) => total(weights.as_slice()),
        Outcome::Saved {
            j: _,
            weight: _,
            waits: _,
        } => 0,
        Outcome::Answer(_) => 0,
        Outcome::Fault(_) => 0,
        Outcome::Missing { name: _, loss: _ } => 0,
    }
}
