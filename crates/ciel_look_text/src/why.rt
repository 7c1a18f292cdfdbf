//! Why a task was started: the chain of needs from the result to it, at each of its starts.

ghost use Rattle.std.specs.Prelude.{◌≡◌, [], ◌∷◌, ◌++◌, ℕ, List, IfOk, IfSome, cond, flat_map, is_some, map, slice_get};
ghost use Rattle.std.specs.List.{list_any};
ghost use Rattle.std.specs.Option.{option_map};
ghost use Rattle.ciel_look_shown.specs.Plain.{shown};
ghost use Rattle.ciel_look_tasks.specs.Known.{maker_as, makers};
ghost use Rattle.ciel_look_tasks.specs.SceneView.{one_of, order_view, picked, scene_view, taken_view};
ghost use Rattle.ciel_look_tasks.specs.Seen.{Taken, is_of};
ghost use Rattle.sky_base.specs.declared.object.TaskId.{TaskId};
ghost use Rattle.ciel_look_tasks.specs.Tasks.{same_task};
ghost use Rattle.ciel_look_tasks.specs.View.{ids, loss_view, start_view};
ghost use Rattle.ciel_look_text.specs.Asked.{any_has, begins_with, first_asked, has_digits};
ghost use Rattle.ciel_look_text.specs.Now.{after_all};
ghost use Rattle.ciel_look_text.specs.Replays.{begun_event, event_view, stand_of, taken_event};
ghost use Rattle.ciel_look_text.specs.Says.{Says as Puts};
ghost use Rattle.ciel_look_text.specs.Text.{text};
ghost use Rattle.ciel_look_text.specs.Why.{IsWhy, IsWhyOf, PutsAll, Reason, SaysStart, chain_said, cut_said, cut_start, is_maker};
ghost use Rattle.ciel_look_text.specs.Why.{loss_lines, takes, took_said, why_start};

use crate::label::{say, say_ends, say_lead, say_name, say_with};
use crate::order::say_start;
use crate::replay::Replay;
use crate::search::chain_to;
use ciel_look_shown::lines::Lines;
use ciel_look_shown::plain::Plain;
use ciel_look_tasks::scene::{Happening, Loss, Run, Scene, Task, is_own};
use sky_base::name::Name;
use sky_base::object::TaskId;
use sky_base::text::{Memory, Txt};
use std::alloc::Global;

/// The lines that say why the task of these first digits was started, none where no task was started that has them; the first such task, where
/// there are several.
///
/// Answers `Memory` for want of memory.
pub fn why_of(alloc: Global, scene: &Scene, digits: &Txt) -> Result<Option<Lines>, Memory>
    ensures found { IfOk result (λ found. is_some found ≡ any_has digits.now (ids scene.now.roll.tasks.items)) }
    ensures why { IfOk result (λ found. IfSome found (λ lines. IsWhyOf digits.now (scene_view scene.now) lines)) }
{
    match find_task(alloc, scene.roll.tasks.as_slice(), digits)? {
        Some(id) => {
            let lines = why_task(alloc, scene, &id)?;
            Ok(Some(lines))
        }
        None => Ok(None),
    }
}

/// The first task that is asked for by these digits.
fn find_task(alloc: Global, tasks: &[Task], digits: &Txt) -> Result<Option<TaskId>, Memory>
    ensures found { IfOk result (λ found. found ≡ first_asked digits.now (ids tasks.now)) }
{
    for task in tasks {
        let found = is_asked(alloc, &task.id, digits)?;
        if found {
            return Ok(Some(task.id));
        }
    }
    Ok(None)
}

/// Whether a task is asked for by these digits.
fn is_asked(alloc: Global, id: &TaskId, digits: &Txt) -> Result<bool, Memory>
    ensures { IfOk result (λ is. is ≡ has_digits digits.now id.now) }
{
    match id {
        TaskId::Show => Ok(digits.as_str() == "show"),
        TaskId::Of(name) => {
            let Ok(text) = hex::encode(alloc, name.bytes()) else {
                return Err(Memory);
            };
            Ok(begins_with(digits.as_str().as_bytes(), text.as_str().as_bytes()))
        }
    }
}

/// Whether a text begins so.
fn begins_with(part: &[u8], text: &[u8]) -> bool
    ensures { result ≡ begins_with part.now text.now }
{
    0 < part.len() && text.starts_with(part)
}

/// A line for each start of the task, and for each loss that took what it had made.
fn why_task(alloc: Global, scene: &Scene, id: &TaskId) -> Result<Lines, Memory>
    ensures why { IfOk result (λ lines. IsWhy (scene_view scene.now) id.now lines) }
{
    let mut lines = Lines::new(alloc);
    let mut replay = Replay::new(alloc);
    for place in 0..scene.happened.len() {
        tell_at(alloc, &mut lines, scene, &mut replay, place, id)?;
    }
    Ok(lines)
}

/// A line for what happened at a place, and what stands then.
fn tell_at(
    alloc: Global,
    lines: &mut Lines,
    scene: &Scene,
    replay: &mut Replay,
    place: usize,
    id: &TaskId,
) -> Result<(), Memory>
    ensures lines { IfOk result (λ _. PutsAll (scene_view scene.now) (stand_of scene.now replay.old) id.now
        (flat_map (event_view scene.now) (one_of (slice_get scene.now.happened.items place))) lines.old lines.new) }
    ensures stand { IfOk result (λ _. stand_of scene.now replay.new
        ≡ after_all (flat_map (event_view scene.now) (one_of (slice_get scene.now.happened.items place))) (stand_of scene.now replay.old)) }
{
    match scene.happened.get(place) {
        Some(one) => {
            put_event(alloc, lines, scene, &*replay, one, id)?;
            replay.step(alloc, scene, one)?;
            Ok(())
        }
        None => Ok(()),
    }
}

/// A line for what happened, where it is a start of the task, or a loss that took what it had made.
fn put_event(
    alloc: Global,
    lines: &mut Lines,
    scene: &Scene,
    replay: &Replay,
    one: &Happening,
    id: &TaskId,
) -> Result<(), Memory>
    ensures lines { IfOk result (λ _. PutsAll (scene_view scene.now) (stand_of scene.now replay.now) id.now (event_view scene.now one.now)
        lines.old lines.new) }
{
    match *one {
        Happening::Begun(place) => {
            put_start_at(alloc, lines, scene, replay, place, id)?;
            Ok(())
        }
        Happening::Ended(_) => Ok(()),
        Happening::Lost(place) => {
            put_loss_at(alloc, lines, scene, replay, place, id)?;
            Ok(())
        }
    }
}

/// A line for the start at a place, where it is of the task.
fn put_start_at(
    alloc: Global,
    lines: &mut Lines,
    scene: &Scene,
    replay: &Replay,
    place: usize,
    id: &TaskId,
) -> Result<(), Memory>
    ensures lines { IfOk result (λ _. PutsAll (scene_view scene.now) (stand_of scene.now replay.now) id.now
        (map begun_event (one_of (slice_get scene.now.runs.items place))) lines.old lines.new) }
{
    match scene.runs.get(place) {
        Some(run) => {
            put_start(alloc, lines, scene, replay, run, id)?;
            Ok(())
        }
        None => Ok(()),
    }
}

/// A line for the loss at a place, where it took what the task had made.
fn put_loss_at(
    alloc: Global,
    lines: &mut Lines,
    scene: &Scene,
    replay: &Replay,
    place: usize,
    id: &TaskId,
) -> Result<(), Memory>
    ensures lines { IfOk result (λ _. PutsAll (scene_view scene.now) (stand_of scene.now replay.now) id.now
        (map (taken_event scene.now) (one_of (slice_get scene.now.losses.items place))) lines.old lines.new) }
{
    match scene.losses.get(place) {
        Some(loss) => {
            put_loss(alloc, lines, scene, loss, id)?;
            Ok(())
        }
        None => Ok(()),
    }
}

/// A line for a start, where it is of the task.
fn put_start(
    alloc: Global,
    lines: &mut Lines,
    scene: &Scene,
    replay: &Replay,
    run: &Run,
    id: &TaskId,
) -> Result<(), Memory>
    ensures line { IfOk result (λ _. (more : List (List ℕ)) × SaysStart (scene_view scene.now) (stand_of scene.now replay.now) id.now
        (order_view run.now) (is_of id.now (order_view run.now)) more × (lines.new ≡ lines.old ++ text more)) }
{
    if is_same(id, &run.id) {
        let line = start_line(alloc, scene, replay, run, id)?;
        lines.put(&line)?;
        return Ok(());
    }
    Ok(())
}

/// A start of the task, with the chain of needs to it.
fn start_line(
    alloc: Global,
    scene: &Scene,
    replay: &Replay,
    run: &Run,
    id: &TaskId,
) -> Result<Plain, Memory>
    ensures line { IfOk result (λ line. (reason : List ℕ) × Reason (scene_view scene.now) (stand_of scene.now replay.now) id.now reason
        × (line ≡ shown (why_start (order_view run.now) reason))) }
{
    let mut line = Plain::new(alloc);
    say_start(&mut line, run)?;
    say(&mut line, ": ")?;
    say_reason(alloc, &mut line, scene, replay, id)?;
    Ok(line)
}

/// Puts why a task is started just now.
fn say_reason(
    alloc: Global,
    line: &mut Plain,
    scene: &Scene,
    replay: &Replay,
    id: &TaskId,
) -> Result<(), Memory>
    ensures said { IfOk result (λ _. (reason : List ℕ) × Reason (scene_view scene.now) (stand_of scene.now replay.now) id.now reason
        × Puts line.old reason line.new) }
{
    match id {
        TaskId::Show => {
            say(line, "the result itself")?;
            Ok(())
        }
        TaskId::Of(name) => {
            say_need(alloc, line, scene, replay, name)?;
            Ok(())
        }
    }
}

/// Puts the chain of needs from the result to the task of this name, if there is one.
fn say_need(
    alloc: Global,
    line: &mut Plain,
    scene: &Scene,
    replay: &Replay,
    name: &Name,
) -> Result<(), Memory>
    ensures said { IfOk result (λ _. (reason : List ℕ) × Reason (scene_view scene.now) (stand_of scene.now replay.now) (TaskId.Of name.now) reason
        × Puts line.old reason line.new) }
{
    let found = chain_to(alloc, scene, replay, name)?;
    match found {
        Some(names) => {
            say_chain(alloc, line, scene, names.as_slice())?;
            Ok(())
        }
        None => {
            say(line, "nobody is seen to wait for it")?;
            Ok(())
        }
    }
}

/// Puts a chain of needs.
fn say_chain(alloc: Global, line: &mut Plain, scene: &Scene, names: &[Name]) -> Result<(), Memory>
    ensures said { IfOk result (λ _. Puts line.old (chain_said (scene_view scene.now) names.now) line.new) }
{
    let mut first = true;
    for name in names {
        say_lead(line, first, "show result waits for ", ", that waits for ")?;
        say_name(alloc, line, scene, name)?;
        first = false;
    }
    Ok(())
}

/// Puts a line where a loss took what the task had made, or cut an order of it.
fn put_loss(
    alloc: Global,
    lines: &mut Lines,
    scene: &Scene,
    loss: &Loss,
    id: &TaskId,
) -> Result<(), Memory>
    ensures lines { IfOk result (λ _. lines.new ≡ lines.old ++ text (loss_lines (scene_view scene.now) id.now (taken_view scene.now loss.now)
        (cut_start id.now (taken_view scene.now loss.now).cut_starts))) }
{
    match cut_of(scene, loss.runs.as_slice(), id) {
        Some(run) => {
            let line = cut_line(alloc, loss, run)?;
            lines.put(&line)?;
            Ok(())
        }
        None => {
            put_took(alloc, lines, scene, loss, id)?;
            Ok(())
        }
    }
}

/// Puts a line where a loss took what the task had made.
fn put_took(
    alloc: Global,
    lines: &mut Lines,
    scene: &Scene,
    loss: &Loss,
    id: &TaskId,
) -> Result<(), Memory>
    ensures lines { IfOk result (λ _. lines.new ≡ lines.old ++ text (cond (takes (scene_view scene.now) id.now (taken_view scene.now loss.now))
        (took_said (taken_view scene.now loss.now) ∷ []) [])) }
{
    if takes_of(scene, loss, id) {
        let line = took_line(alloc, loss)?;
        lines.put(&line)?;
        return Ok(());
    }
    Ok(())
}

/// A loss cut an order.
fn cut_line(alloc: Global, loss: &Loss, run: &Run) -> Result<Plain, Memory>
    ensures line { IfOk result (λ line. (l : Taken) → l.loss ≡ loss_view loss.now → line ≡ shown (cut_said l (start_view run.now))) }
{
    let mut line = Plain::new(alloc);
    say_with(&mut line, "start ", run.number)?;
    say_with(&mut line, " was cut: worker ", loss.worker as u64)?;
    say(&mut line, " was lost, after ")?;
    say_ends(&mut line, loss.after)?;
    Ok(line)
}

/// A loss took what a task had made.
fn took_line(alloc: Global, loss: &Loss) -> Result<Plain, Memory>
    ensures line { IfOk result (λ line. (l : Taken) → l.loss ≡ loss_view loss.now → line ≡ shown (took_said l)) }
{
    let mut line = Plain::new(alloc);
    say_with(
        &mut line,
        "what it had made was lost with worker ",
        loss.worker as u64,
    )?;
    say(&mut line, ", after ")?;
    say_ends(&mut line, loss.after)?;
    Ok(line)
}

/// The first of the orders at these places that is of the task.
fn cut_of<'a>(scene: &'a Scene, places: &[usize], id: &TaskId) -> Option<&'a Run>
    ensures cut { option_map (λ r. start_view r.now) result ≡ cut_start id.now (map start_view (picked scene.now.runs.items places.now)) }
{
    for place in places {
        if let Some(run) = of_task(scene, *place, id) {
            return Some(run);
        }
    }
    None
}

/// The order at a place, where it is of the task.
fn of_task<'a>(scene: &'a Scene, place: usize, id: &TaskId) -> Option<&'a Run>
    ensures run { option_map (λ r. start_view r.now) result ≡ cut_start id.now (map start_view (one_of (slice_get scene.now.runs.items place))) }
{
    match scene.runs.get(place) {
        Some(run) => {
            if is_same(id, &run.id) {
                return Some(run);
            }
            None
        }
        None => None,
    }
}

/// Whether the loss took an object that the task makes, or its stack.
fn takes_of(scene: &Scene, loss: &Loss, id: &TaskId) -> bool
    ensures { result ≡ takes (scene_view scene.now) id.now (taken_view scene.now loss.now) }
{
    takes_stack(scene, loss.stacks.as_slice(), id)
        || takes_object(scene, loss.objects.as_slice(), id)
}

/// Whether the task is one of those at these places.
fn takes_stack(scene: &Scene, places: &[usize], id: &TaskId) -> bool
    ensures { result ≡ list_any (same_task id.now) (ids (picked scene.now.roll.tasks.items places.now)) }
{
    for place in places {
        if is_at(scene, *place, id) {
            return true;
        }
    }
    false
}

/// Whether the task is the one at a place.
fn is_at(scene: &Scene, place: usize, id: &TaskId) -> bool
    ensures { result ≡ list_any (same_task id.now) (ids (one_of (slice_get scene.now.roll.tasks.items place))) }
{
    match scene.roll.tasks.get(place) {
        Some(task) => is_same(id, &task.id),
        None => false,
    }
}

/// Whether the task makes one of these objects.
fn takes_object(scene: &Scene, names: &[Name], id: &TaskId) -> bool
    ensures { result ≡ list_any (λ name. is_maker id.now (maker_as name (makers scene.now.known.all.items))) names.now }
{
    for name in names {
        if is_made(scene, name, id) {
            return true;
        }
    }
    false
}

/// Whether the task makes an object.
fn is_made(scene: &Scene, name: &Name, id: &TaskId) -> bool
    ensures { result ≡ is_maker id.now (maker_as name.now (makers scene.now.known.all.items)) }
{
    match scene.find(name) {
        Some(known) => is_same(&known.task, id),
        None => false,
    }
}

/// Whether they are the same task.
fn is_same(one: &TaskId, other: &TaskId) -> bool
    ensures { result ≡ same_task one.now other.now }
{
    match other {
        TaskId::Show => is_root(one),
        TaskId::Of(name) => is_own(one, name),
    }
}

/// Whether a task is the root task.
fn is_root(id: &TaskId) -> bool
    ensures { result ≡ same_task id.now TaskId.Show }
{
    match id {
        TaskId::Show => true,
        TaskId::Of(_) => false,
    }
}
