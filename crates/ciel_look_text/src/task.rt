//! Tasks in lines of text: what each is, and its orders.

ghost use Rattle.std.specs.Prelude.{◌≡◌, IfOk, codes, map, slice_get};
ghost use Rattle.ciel_look_shown.specs.Plain.{shown};
ghost use Rattle.ciel_look_tasks.specs.Known.{knowns};
ghost use Rattle.ciel_look_tasks.specs.SceneView.{one_of, picked, row_view};
ghost use Rattle.ciel_look_text.specs.Runs.{run_said};
ghost use Rattle.ciel_look_text.specs.Says.{Says, SaysSome};
ghost use Rattle.ciel_look_text.specs.Text.{more_starts, task_line};
ghost use Rattle.ciel_look_text.specs.Words.{led};

use crate::label::{MOST_TOLD, say, say_count, say_lead, say_own, say_task};
use crate::order::say_order;
use ciel_look_shown::plain::Plain;
use ciel_look_tasks::scene::{Scene, Task};
use sky_base::text::Memory;
use std::alloc::Global;

/// The line of a task, with its words and each of its orders.
pub fn task_line(alloc: Global, scene: &Scene, task: &Task) -> Result<Plain, Memory>
    ensures line { IfOk result (λ l. l ≡ shown (task_line (knowns scene.now.known.all.items) (row_view scene.now task.now))) }
{
    let mut line = Plain::new(alloc);
    let told = task.runs.len().min(MOST_TOLD);
    say_task(alloc, &mut line, &task.id)?;
    say_own(alloc, &mut line, scene, task)?;
    say_orders(alloc, &mut line, scene, &task.runs[..told])?;
    say_more(&mut line, task.runs.len() - told)?;
    Ok(line)
}

/// Puts the orders of these places.
fn say_orders(
    alloc: Global,
    line: &mut Plain,
    scene: &Scene,
    places: &[usize],
) -> Result<(), Memory>
    ensures said { IfOk result (λ _. Says line.old (led (codes ": ") (codes "; ")
        (map (run_said (knowns scene.now.known.all.items)) (picked scene.now.runs.items places.now))) line.new) }
{
    let mut first = true;
    for place in places {
        first = say_order_at(alloc, line, scene, first, *place)?;
    }
    Ok(())
}

/// Puts the order at a place, if there is one; whether nothing was put so far.
fn say_order_at(
    alloc: Global,
    line: &mut Plain,
    scene: &Scene,
    first: bool,
    place: usize,
) -> Result<bool, Memory>
    ensures said { IfOk result (λ none. SaysSome (codes ": ") (codes "; ") first line.old
        (map (run_said (knowns scene.now.known.all.items)) (one_of (slice_get scene.now.runs.items place))) line.new none) }
{
    match scene.runs.get(place) {
        Some(run) => {
            say_lead(line, first, ": ", "; ")?;
            say_order(alloc, line, scene, run)?;
            Ok(false)
        }
        None => Ok(first),
    }
}

/// Puts how many other starts there were.
fn say_more(line: &mut Plain, count: usize) -> Result<(), Memory>
    ensures said { IfOk result (λ _. Says line.old (more_starts count) line.new) }
{
    if count == 0 {
        return Ok(());
    }
    say(line, "; and ")?;
    say_count(line, count as u64, " more start", " more starts")?;
    Ok(())
}
