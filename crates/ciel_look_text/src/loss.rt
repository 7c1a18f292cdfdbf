//! Losses in lines of text: which worker was lost when, and what was lost with it.

ghost use Rattle.std.specs.Prelude.{◌≡◌, [], IfOk, codes, map, slice_get, true};
ghost use Rattle.ciel_look_shown.specs.Plain.{shown};
ghost use Rattle.ciel_look_tasks.specs.Known.{knowns};
ghost use Rattle.ciel_look_tasks.specs.SceneView.{one_of, picked, taken_view};
ghost use Rattle.ciel_look_tasks.specs.View.{run_number};
ghost use Rattle.ciel_look_text.specs.Runs.{number_said};
ghost use Rattle.ciel_look_text.specs.Says.{Says, SaysSome};
ghost use Rattle.ciel_look_text.specs.Text.{cut_part, loss_line, objects_part, stacks_part, took, took_parts};

use crate::label::{say, say_count, say_ends, say_lead, say_number, say_row, say_with};
use ciel_look_shown::plain::Plain;
use ciel_look_tasks::scene::{Loss, Scene};
use sky_base::name::Name;
use sky_base::text::Memory;
use std::alloc::Global;

/// The line of a loss.
pub fn loss_line(alloc: Global, scene: &Scene, loss: &Loss) -> Result<Plain, Memory>
    ensures line { IfOk result (λ l. l ≡ shown (loss_line (knowns scene.now.known.all.items) (taken_view scene.now loss.now))) }
{
    let mut line = Plain::new(alloc);
    say_with(&mut line, "worker ", loss.worker as u64)?;
    say(&mut line, " was lost after ")?;
    say_ends(&mut line, loss.after)?;
    say(&mut line, "; it took ")?;
    say_took(alloc, &mut line, scene, loss)?;
    Ok(line)
}

/// Puts what a loss took.
fn say_took(alloc: Global, line: &mut Plain, scene: &Scene, loss: &Loss) -> Result<(), Memory>
    ensures said { IfOk result (λ _. Says line.old (took (knowns scene.now.known.all.items) (taken_view scene.now loss.now)) line.new) }
{
    let none = say_parts(alloc, line, scene, loss)?;
    if none {
        say(line, "nothing")?;
        return Ok(());
    }
    Ok(())
}

/// Puts the objects, the stacks and the orders that a loss took, as far as there are some; whether there are none.
fn say_parts(alloc: Global, line: &mut Plain, scene: &Scene, loss: &Loss) -> Result<bool, Memory>
    ensures said { IfOk result (λ none. SaysSome [] (codes "; ") true line.old (took_parts (knowns scene.now.known.all.items) (taken_view scene.now loss.now))
        line.new none) }
{
    let first = say_objects(alloc, line, scene, loss.objects.as_slice())?;
    let first = say_stacks(line, first, loss.stacks.len())?;
    let first = say_cut(alloc, line, scene, first, loss.runs.as_slice())?;
    Ok(first)
}

/// Puts objects, if there are some; whether there are none.
fn say_objects(
    alloc: Global,
    line: &mut Plain,
    scene: &Scene,
    names: &[Name],
) -> Result<bool, Memory>
    ensures said { IfOk result (λ none. SaysSome [] (codes "; ") true line.old (objects_part (knowns scene.now.known.all.items) names.now) line.new none) }
{
    if names.is_empty() {
        return Ok(true);
    }
    say_row(alloc, line, scene, names)?;
    Ok(false)
}

/// Puts how many stacks there were, if there were some; whether nothing was put so far.
fn say_stacks(line: &mut Plain, first: bool, count: usize) -> Result<bool, Memory>
    ensures said { IfOk result (λ none. SaysSome [] (codes "; ") first line.old (stacks_part count) line.new none) }
{
    if count == 0 {
        return Ok(first);
    }
    say_lead(line, first, "", "; ")?;
    say_count(line, count as u64, " stack", " stacks")?;
    Ok(false)
}

/// Puts the numbers of the orders that were out, if there were some; whether nothing was put so far.
fn say_cut(
    alloc: Global,
    line: &mut Plain,
    scene: &Scene,
    first: bool,
    places: &[usize],
) -> Result<bool, Memory>
    ensures said { IfOk result (λ none. SaysSome [] (codes "; ") first line.old
        (cut_part (map run_number (picked scene.now.runs.items places.now))) line.new none) }
{
    let mut part = Plain::new(alloc);
    let none = say_numbers(&mut part, scene, places)?;
    if none {
        return Ok(first);
    }
    say_lead(line, first, "", "; ")?;
    line.put_all(&part)?;
    Ok(false)
}

/// Puts the numbers of the orders at these places; whether there are none.
fn say_numbers(line: &mut Plain, scene: &Scene, places: &[usize]) -> Result<bool, Memory>
    ensures said { IfOk result (λ none. SaysSome (codes "start ") (codes ", start ") true line.old
        (map number_said (picked scene.now.runs.items places.now)) line.new none) }
{
    let mut first = true;
    for place in places {
        first = say_number_at(line, scene, first, *place)?;
    }
    Ok(first)
}

/// Puts the number of the order at a place, if there is one; whether nothing was put so far.
fn say_number_at(line: &mut Plain, scene: &Scene, first: bool, place: usize) -> Result<bool, Memory>
    ensures said { IfOk result (λ none. SaysSome (codes "start ") (codes ", start ") first line.old
        (map number_said (one_of (slice_get scene.now.runs.items place))) line.new none) }
{
    match scene.runs.get(place) {
        Some(run) => {
            say_lead(line, first, "start ", ", start ")?;
            say_number(line, run.number)?;
            Ok(false)
        }
        None => Ok(first),
    }
}
