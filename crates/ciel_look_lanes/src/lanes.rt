//! The lanes of the workers: a bar from each start to its end, losses and copies.

ghost use Rattle.std.specs.Prelude.{◌≡◌, ◌≤◌, [], ◌∷◌, ◌++◌, ℕ, List, IfOk, MatchOption, None, Some, codes, cond, decimal};
ghost use Rattle.std.specs.Prelude.{flat_map, length, map, slice_get};
ghost use Rattle.ciel_look_shown.specs.Plain.{shown};
ghost use Rattle.ciel_look_told.specs.View.{outcome_view};
ghost use Rattle.ciel_look_tasks.specs.SceneView.{end_view, order_view, row_view, scene_view};
ghost use Rattle.ciel_look_sheet.specs.Drawn.{Draws};
ghost use Rattle.ciel_look_lanes.specs.Bars.{arrows, bar_title, bar_titles, bars, close_words, copy_title, copy_titles, from_words, if_both, order_at};
ghost use Rattle.ciel_look_lanes.specs.Bars.{order_words, outcome_words, row_of};

use crate::axis::{Axis, LANE, LEFT, MOST_LANES, lane_of, lane_top};
use ciel_look_sheet::nodes::{MOST_DRAWN, say, task_colour, task_head, task_tip, task_words};
use ciel_look_sheet::sheet::{Area, Look, Sheet, Way, room};
use ciel_look_shown::plain::Plain;
use ciel_look_tasks::scene::{Copied, End, How, Loss, Run, Scene, Task};
use ciel_look_told::told::Outcome;
use ciel_look_words::label::whole;
use sky_base::object::TaskId;
use sky_base::text::Memory;
use std::alloc::Global;

/// How many bars a lane has at most, where they are folded.
const MOST_BARS: usize = 60;

/// Draws the lanes: where there are few tasks a bar for each order, and a cross for each loss.
///
/// Answers `Memory` for want of memory.
pub fn draw_lanes(alloc: Global, sheet: &mut Sheet, scene: &Scene) -> Result<(), Memory>
    ensures few { IfOk result (λ _. length scene.now.roll.tasks.items ≤ 300
        → Draws (bars (scene_view scene.now)) (arrows scene.now) (length scene.now.losses.items) sheet.old.marks sheet.new.marks) }
    ensures many { IfOk result (λ _. (boxes : List (List ℕ)) × (arrows : List (List ℕ))
        × Draws boxes arrows (length scene.now.losses.items) sheet.old.marks sheet.new.marks) }
{
    let axis = Axis::of(scene.happened.len());
    let lanes = lanes_of(scene);
    draw_grounds(alloc, sheet, scene, &axis, lanes)?;
    draw_orders(alloc, sheet, scene, &axis, lanes)?;
    draw_losses(alloc, sheet, &axis, scene.losses.as_slice())?;
    let note = say(alloc, "in the order of the log, which has no times")?;
    sheet.text(LEFT, lane_top(lanes).saturating_add(6), 11, "#777", &note)?;
    Ok(())
}

/// The names and the ground lines of the lanes.
fn draw_grounds(
    alloc: Global,
    sheet: &mut Sheet,
    scene: &Scene,
    axis: &Axis,
    lanes: usize,
) -> Result<(), Memory>
    ensures drawn { IfOk result (λ _. Draws [] [] 0 sheet.old.marks sheet.new.marks) }
{
    for lane in 0..lanes {
        draw_lane(alloc, sheet, scene, axis, lane)?;
    }
    Ok(())
}

/// The bars of the orders, and the arrows of the copies: folded, where there are many tasks.
fn draw_orders(
    alloc: Global,
    sheet: &mut Sheet,
    scene: &Scene,
    axis: &Axis,
    lanes: usize,
) -> Result<(), Memory>
    ensures few { IfOk result (λ _. length scene.now.roll.tasks.items ≤ 300
        → Draws (bars (scene_view scene.now)) (arrows scene.now) 0 sheet.old.marks sheet.new.marks) }
    ensures many { IfOk result (λ _. (boxes : List (List ℕ)) × (arrows : List (List ℕ)) × Draws boxes arrows 0 sheet.old.marks sheet.new.marks) }
{
    let few = scene.roll.tasks.len() <= MOST_DRAWN;
    if few {
        draw_runs(alloc, sheet, scene, axis, scene.runs.as_slice())?;
        draw_copies(alloc, sheet, scene, axis, scene.copies.as_slice())?;
        return Ok(());
    }
    draw_all_folded(alloc, sheet, scene, axis, lanes)?;
    Ok(())
}

/// A bar for each of these orders.
fn draw_runs(
    alloc: Global,
    sheet: &mut Sheet,
    scene: &Scene,
    axis: &Axis,
    runs: &[Run],
) -> Result<(), Memory>
    ensures drawn { IfOk result (λ _. Draws (flat_map (bar_titles (scene_view scene.now).rows) (map order_view runs.now)) [] 0
        sheet.old.marks sheet.new.marks) }
{
    for run in runs {
        draw_run(alloc, sheet, scene, axis, run)?;
    }
    Ok(())
}

/// An arrow for each of these copies.
fn draw_copies(
    alloc: Global,
    sheet: &mut Sheet,
    scene: &Scene,
    axis: &Axis,
    copies: &[Copied],
) -> Result<(), Memory>
    ensures drawn { IfOk result (λ _. Draws [] (flat_map (copy_titles scene.now) copies.now) 0 sheet.old.marks sheet.new.marks) }
{
    for copied in copies {
        draw_copy(alloc, sheet, scene, axis, copied)?;
    }
    Ok(())
}

/// The bars of all lanes, folded.
fn draw_all_folded(
    alloc: Global,
    sheet: &mut Sheet,
    scene: &Scene,
    axis: &Axis,
    lanes: usize,
) -> Result<(), Memory>
    ensures drawn { IfOk result (λ _. (boxes : List (List ℕ)) × Draws boxes [] 0 sheet.old.marks sheet.new.marks) }
{
    for lane in 0..lanes {
        draw_folded(alloc, sheet, scene, axis, lane)?;
    }
    Ok(())
}

/// A cross for each of these losses.
fn draw_losses(alloc: Global, sheet: &mut Sheet, axis: &Axis, losses: &[Loss]) -> Result<(), Memory>
    ensures drawn { IfOk result (λ _. Draws [] [] (length losses.now) sheet.old.marks sheet.new.marks) }
{
    for loss in losses {
        draw_loss(alloc, sheet, axis, loss)?;
    }
    Ok(())
}

/// How many lanes there are.
fn lanes_of(scene: &Scene) -> usize {
    let mut lanes = 0;
    for run in &scene.runs {
        lanes = lane_of(run.worker).saturating_add(1).max(lanes);
    }
    for loss in &scene.losses {
        lanes = lane_of(loss.worker).saturating_add(1).max(lanes);
    }
    lanes
}

/// The name of a lane, and its ground line up to its worker's loss.
fn draw_lane(
    alloc: Global,
    sheet: &mut Sheet,
    scene: &Scene,
    axis: &Axis,
    lane: usize,
) -> Result<(), Memory>
    ensures drawn { IfOk result (λ _. Draws [] [] 0 sheet.old.marks sheet.new.marks) }
{
    let top = lane_top(lane);
    let mut name = Plain::new(alloc);
    if lane < MOST_LANES {
        name.put("worker ".as_bytes())?;
        name.put_number(lane as u64)?;
    } else {
        name.put("others".as_bytes())?;
    }
    sheet.text(8, top.saturating_add(22), 13, "#222", &name)?;
    let mut end = scene.happened.len();
    for loss in &scene.losses {
        if lane_of(loss.worker) == lane {
            end = end.min(loss.at);
        }
    }
    let y = top.saturating_add(LANE - 8);
    sheet.line(
        Way {
            x: LEFT,
            y,
            to_x: axis.x(end.saturating_add(1)),
            to_y: y,
        },
        "#bbb",
    )?;
    Ok(())
}

/// Where an order ended, or where all that happened ends.
fn end_of(scene: &Scene, run: &Run) -> usize {
    match &run.end {
        Some(end) => end.at,
        None => scene.happened.len(),
    }
}

/// The bar of an order.
fn draw_run(
    alloc: Global,
    sheet: &mut Sheet,
    scene: &Scene,
    axis: &Axis,
    run: &Run,
) -> Result<(), Memory>
    ensures drawn { IfOk result (λ _. Draws (bar_titles (scene_view scene.now).rows (order_view run.now)) [] 0 sheet.old.marks sheet.new.marks) }
{
    match task_of(scene, &run.id) {
        Some(task) => {
            draw_bar(alloc, sheet, scene, axis, run, task)?;
            Ok(())
        }
        None => Ok(()),
    }
}

/// The task of this name, if it was started.
fn task_of<'a>(scene: &'a Scene, id: &TaskId) -> Option<&'a Task>
    ensures row { MatchOption result (row_of id.now (scene_view scene.now).rows ≡ None)
        (λ t. row_of id.now (scene_view scene.now).rows ≡ Some (row_view scene.now t.now)) }
{
    match scene.roll.place(id) {
        Some(place) => scene.roll.tasks.get(place),
        None => None,
    }
}

/// The bar of an order of this task.
fn draw_bar(
    alloc: Global,
    sheet: &mut Sheet,
    scene: &Scene,
    axis: &Axis,
    run: &Run,
    task: &Task,
) -> Result<(), Memory>
    ensures drawn { IfOk result (λ _. Draws (bar_title (order_view run.now) (row_view scene.now task.now) ∷ []) [] 0
        sheet.old.marks sheet.new.marks) }
{
    let x = axis.x(run.begun);
    let width = axis
        .x(end_of(scene, run))
        .saturating_sub(x)
        .saturating_sub(2)
        .max(4);
    let area = Area {
        x,
        y: lane_top(lane_of(run.worker)).saturating_add(2),
        width,
        height: 28,
    };
    let look = Look {
        colour: task_colour(scene, task),
        red: run.again,
        dashed: is_broken(run),
    };
    let text = run_words(alloc, scene, task, run, room(width))?;
    let mut tip = task_tip(alloc, scene, task)?;
    put_order(&mut tip, run)?;
    sheet.boxed(area, look, 10, &text, &tip)?;
    Ok(())
}

/// The words of an order in a box with so much room: its task's, or where these are too long the name of the function or executor alone, and
/// the wait that it goes on from.
fn run_words(
    alloc: Global,
    scene: &Scene,
    task: &Task,
    run: &Run,
    room: usize,
) -> Result<Plain, Memory> {
    let whole = task_words(alloc, scene, task)?;
    let mut text = if whole.len() > room {
        task_head(alloc, scene, task)?
    } else {
        whole
    };
    if run.from > 0 {
        text.put("+".as_bytes())?;
        text.put_number(u64::from(run.from))?;
    }
    Ok(text)
}

/// Whether an order came to no end of its task: it waited, missed something, was cut, or is still out.
fn is_broken(run: &Run) -> bool {
    match &run.end {
        None => true,
        Some(end) => match &end.how {
            How::Lost { loss: _ } => true,
            How::Told { outcome, made: _ } => matches!(
                outcome,
                Outcome::Saved {
                    j: _,
                    weight: _,
                    waits: _,
                } | Outcome::Missing { name: _, loss: _ }
            ),
        },
    }
}

/// Puts an order's number, worker and end.
fn put_order(tip: &mut Plain, run: &Run) -> Result<(), Memory>
    ensures put { IfOk result (λ _. tip.new ≡ tip.old ++ shown (order_words (order_view run.now))) }
{
    put_again(tip, run.again)?;
    tip.put_number(run.number)?;
    put_worker(tip, run.worker)?;
    put_from(tip, run.from)?;
    put_close(tip, &run.end)?;
    Ok(())
}

fn put_again(tip: &mut Plain, again: bool) -> Result<(), Memory>
    ensures put { IfOk result (λ _. tip.new ≡ tip.old ++ shown (cond again (codes ", again start ") (codes ", start "))) }
{
    if again {
        tip.put(", again start ".as_bytes())?;
        return Ok(());
    }
    tip.put(", start ".as_bytes())?;
    Ok(())
}

fn put_worker(tip: &mut Plain, worker: u32) -> Result<(), Memory>
    ensures put { IfOk result (λ _. tip.new ≡ tip.old ++ shown (codes " at worker " ++ decimal worker)) }
{
    tip.put(" at worker ".as_bytes())?;
    tip.put_number(worker as u64)?;
    Ok(())
}

fn put_from(tip: &mut Plain, from: u32) -> Result<(), Memory>
    ensures put { IfOk result (λ _. tip.new ≡ tip.old ++ shown (from_words from)) }
{
    if from == 0 {
        return Ok(());
    }
    tip.put(" from wait ".as_bytes())?;
    tip.put_number(from as u64)?;
    Ok(())
}

fn put_close(tip: &mut Plain, end: &Option<End>) -> Result<(), Memory>
    ensures put { IfOk result (λ _. tip.new ≡ tip.old ++ shown (close_words (end_view end.now))) }
{
    tip.put(how_words(end).as_bytes())?;
    Ok(())
}

fn how_words(end: &Option<End>) -> &'static str
    ensures words { result.now ≡ close_words (end_view end.now) }
{
    match end {
        None => ", still out",
        Some(end) => match &end.how {
            How::Lost { loss: _ } => ", lost with its worker",
            How::Told { outcome, made: _ } => outcome_words(outcome),
        },
    }
}

fn outcome_words(outcome: &Outcome) -> &'static str
    ensures words { result.now ≡ outcome_words (outcome_view outcome.now) }
{
    match outcome {
        Outcome::Made(_) => ", done",
        Outcome::Saved {
            j: _,
            weight: _,
            waits: _,
        } => ", waits",
        Outcome::Answer(_) => ", shows the answer",
        Outcome::Fault(_) => ", shows a fault",
        Outcome::Missing { name: _, loss: _ } => ", missed something",
    }
}

/// The cross of a loss.
fn draw_loss(alloc: Global, sheet: &mut Sheet, axis: &Axis, loss: &Loss) -> Result<(), Memory>
    ensures drawn { IfOk result (λ _. Draws [] [] 1 sheet.old.marks sheet.new.marks) }
{
    let x = axis.x(loss.at).saturating_add(12);
    let y = lane_top(lane_of(loss.worker)).saturating_add(16);
    sheet.cross(x, y)?;
    let text = say(alloc, "lost")?;
    sheet.text(x.saturating_add(12), y.saturating_add(5), 12, "#c00", &text)?;
    Ok(())
}

/// The arrow of a copy, from the order that made the object to the one that took it along.
fn draw_copy(
    alloc: Global,
    sheet: &mut Sheet,
    scene: &Scene,
    axis: &Axis,
    copied: &Copied,
) -> Result<(), Memory>
    ensures drawn { IfOk result (λ _. Draws [] (copy_titles scene.now copied.now) 0 sheet.old.marks sheet.new.marks) }
{
    match order_at(scene, copied.from) {
        Some(from) => {
            draw_from(alloc, sheet, scene, axis, copied, from)?;
            Ok(())
        }
        None => Ok(()),
    }
}

/// The order at a place, if there is one.
fn order_at<'a>(scene: &'a Scene, place: Option<usize>) -> Option<&'a Run>
    ensures order { MatchOption result (order_at scene.now place ≡ None) (λ r. order_at scene.now place ≡ Some r.now) }
{
    match place {
        Some(place) => scene.runs.get(place),
        None => None,
    }
}

/// The arrow of a copy from this order.
fn draw_from(
    alloc: Global,
    sheet: &mut Sheet,
    scene: &Scene,
    axis: &Axis,
    copied: &Copied,
    from: &Run,
) -> Result<(), Memory>
    ensures drawn { IfOk result (λ _. Draws [] (if_both (Some from.now) (slice_get scene.now.runs.items copied.now.run) (copy_title copied.now)) 0
        sheet.old.marks sheet.new.marks) }
{
    match scene.runs.get(copied.run) {
        Some(to) => {
            draw_arrow(alloc, sheet, scene, axis, copied, from, to)?;
            Ok(())
        }
        None => Ok(()),
    }
}

/// The arrow of a copy from the one order to the other.
fn draw_arrow(
    alloc: Global,
    sheet: &mut Sheet,
    scene: &Scene,
    axis: &Axis,
    copied: &Copied,
    from: &Run,
    to: &Run,
) -> Result<(), Memory>
    ensures drawn { IfOk result (λ _. Draws [] (copy_title copied.now ∷ []) 0 sheet.old.marks sheet.new.marks) }
{
    let mut tip = say(alloc, "copy of ")?;
    let name = whole(alloc, &copied.name)?;
    tip.put_all(&name)?;
    let way = Way {
        x: axis.x(end_of(scene, from)).saturating_sub(2),
        y: lane_top(lane_of(from.worker)).saturating_add(16),
        to_x: axis.x(to.begun),
        to_y: lane_top(lane_of(to.worker)).saturating_add(16),
    };
    sheet.arrow(way, "#777", true, &tip)?;
    Ok(())
}

/// The bars of a lane, folded: each is of as many orders, one behind the other.
fn draw_folded(
    alloc: Global,
    sheet: &mut Sheet,
    scene: &Scene,
    axis: &Axis,
    lane: usize,
) -> Result<(), Memory>
    ensures drawn { IfOk result (λ _. (boxes : List (List ℕ)) × Draws boxes [] 0 sheet.old.marks sheet.new.marks) }
{
    let runs = runs_in(alloc, scene, lane)?;
    draw_parts(alloc, sheet, scene, axis, runs.as_slice())?;
    Ok(())
}

/// The places of the orders in a lane.
fn runs_in(alloc: Global, scene: &Scene, lane: usize) -> Result<Vec<usize>, Memory> {
    let mut runs = Vec::new(alloc);
    for (place, run) in scene.runs.iter().enumerate() {
        if lane_of(run.worker) == lane && runs.push(place).is_err() {
            return Err(Memory);
        }
    }
    Ok(runs)
}

/// A bar for each part of these orders, of which there are at most so many as a lane has bars.
fn draw_parts(
    alloc: Global,
    sheet: &mut Sheet,
    scene: &Scene,
    axis: &Axis,
    runs: &[usize],
) -> Result<(), Memory>
    ensures drawn { IfOk result (λ _. (boxes : List (List ℕ)) × Draws boxes [] 0 sheet.old.marks sheet.new.marks) }
{
    let size = (runs.len() / MOST_BARS).saturating_add(1);
    for some in runs.chunks(size) {
        draw_some(alloc, sheet, scene, axis, some)?;
    }
    Ok(())
}

/// A bar of several orders.
fn draw_some(
    alloc: Global,
    sheet: &mut Sheet,
    scene: &Scene,
    axis: &Axis,
    some: &[usize],
) -> Result<(), Memory>
    ensures drawn { IfOk result (λ _. (boxes : List (List ℕ)) × Draws boxes [] 0 sheet.old.marks sheet.new.marks) }
{
    let (Some(first), Some(last)) = (run_at(scene, some.first()), run_at(scene, some.last())) else {
        return Ok(());
    };
    let Some(task) = scene.roll.tasks.get(first.task) else {
        return Ok(());
    };
    let head = task_head(alloc, scene, task)?;
    let alike = are_alike(alloc, scene, some, &head)?;
    let again = some.iter().any(|place| is_again(scene, *place));
    let mut text = Plain::new(alloc);
    if alike {
        text.put_all(&head)?;
        text.put(" x ".as_bytes())?;
        text.put_number(some.len() as u64)?;
    } else {
        text.put_number(some.len() as u64)?;
        text.put(" starts".as_bytes())?;
    }
    let mut tip = Plain::new(alloc);
    tip.put_all(&text)?;
    tip.put(", from start ".as_bytes())?;
    tip.put_number(first.number)?;
    tip.put(" to start ".as_bytes())?;
    tip.put_number(last.number)?;
    let x = axis.x(first.begun);
    let area = Area {
        x,
        y: lane_top(lane_of(first.worker)).saturating_add(2),
        width: axis
            .x(end_of(scene, last))
            .saturating_sub(x)
            .saturating_sub(1)
            .max(4),
        height: 28,
    };
    let look = Look {
        colour: if alike {
            task_colour(scene, task)
        } else {
            "#d9d9d9"
        },
        red: again,
        dashed: false,
    };
    sheet.boxed(area, look, 10, &text, &tip)?;
    Ok(())
}

fn run_at<'a>(scene: &'a Scene, place: Option<&usize>) -> Option<&'a Run> {
    scene.runs.get(*place?)
}

fn is_again(scene: &Scene, place: usize) -> bool {
    match scene.runs.get(place) {
        Some(run) => run.again,
        None => false,
    }
}

/// Whether these orders are all of tasks with this head.
fn are_alike(alloc: Global, scene: &Scene, some: &[usize], head: &Plain) -> Result<bool, Memory> {
    for place in some {
        if let Some(run) = scene.runs.get(*place) {
            if let Some(task) = scene.roll.tasks.get(run.task) {
                let other = task_head(alloc, scene, task)?;
                if other.as_slice() != head.as_slice() {
                    return Ok(false);
                }
            }
        }
    }
    Ok(true)
}
