//! Kinds of tasks with their colours, and their labels.

ghost use Rattle.std.specs.Prelude.{◌≡◌, IfOk, None, Some};
ghost use Rattle.sky_base.specs.ObjectView.{desc_view};
ghost use Rattle.ciel_look_shown.specs.Plain.{shown};
ghost use Rattle.ciel_look_tasks.specs.Heads.{own_desc};
ghost use Rattle.ciel_look_tasks.specs.Known.{known_view, named_at};
ghost use Rattle.ciel_look_tasks.specs.SceneView.{row_view};
ghost use Rattle.ciel_look_sheet.specs.Labels.{desc_colour, task_colour, task_head, task_words};
ghost use Rattle.ciel_look_sheet.specs.Titles.{named_title, row_title, task_title, whole_name};

use ciel_look_shown::plain::Plain;
use ciel_look_tasks::scene::{Scene, Task, is_own};
use ciel_look_words::known::Known;
use ciel_look_words::label::{label_of, whole};
use ciel_look_words::words;
use sky_base::object::{Desc1, TaskId};
use sky_base::text::Memory;
use std::alloc::Global;

/// Up to how many tasks each is drawn by itself.
pub const MOST_DRAWN: usize = 300;

/// The colour of a description.
pub fn colour_of(desc: &Desc1) -> &'static str
    ensures colour { result.now ≡ desc_colour (desc_view desc.now) }
{
    match desc {
        Desc1::Call {
            fun: _,
            caught: _,
            args: _,
        } => "#9ecae1",
        Desc1::Exec {
            executor: _,
            args: _,
            outputs: _,
            index: _,
        } => "#a1d99b",
        Desc1::Input { key: _ } => "#ffffff",
    }
}

/// The colour of a task.
pub fn task_colour(scene: &Scene, task: &Task) -> &'static str
    ensures colour { result.now ≡ task_colour (named_at scene.now.known.all.items task.now.known) task.now.id }
{
    match scene.desc_of(task) {
        Some(known) => colour_of(&known.desc),
        None => other_colour(&task.id),
    }
}

/// The colour of a task of which no description is known.
fn other_colour(id: &TaskId) -> &'static str
    ensures colour { result.now ≡ task_colour None id.now }
{
    match id {
        TaskId::Show => "#fdd0a2",
        TaskId::Of(_) => "#d9d9d9",
    }
}

/// The words of a task.
///
/// Answers `Memory` for want of memory.
pub fn task_words(alloc: Global, scene: &Scene, task: &Task) -> Result<Plain, Memory>
    ensures words { IfOk result (λ t. t ≡ shown (task_words (named_at scene.now.known.all.items task.now.known) task.now.id)) }
{
    match scene.desc_of(task) {
        Some(known) => {
            let text = words::words(alloc, &known.desc)?;
            Ok(text)
        }
        None => {
            let name = task_name(alloc, &task.id)?;
            Ok(name)
        }
    }
}

/// The name of a task's function or executor alone.
///
/// Answers `Memory` for want of memory.
pub fn task_head(alloc: Global, scene: &Scene, task: &Task) -> Result<Plain, Memory>
    ensures head { IfOk result (λ t. t ≡ shown (task_head (named_at scene.now.known.all.items task.now.known) task.now.id)) }
{
    match scene.desc_of(task) {
        Some(known) => {
            let text = words::head(alloc, &known.desc)?;
            Ok(text)
        }
        None => {
            let text = other_head(alloc, &task.id)?;
            Ok(text)
        }
    }
}

/// What stands for the head of a task of which no description is known.
fn other_head(alloc: Global, id: &TaskId) -> Result<Plain, Memory>
    ensures head { IfOk result (λ t. t ≡ shown (task_head None id.now)) }
{
    match id {
        TaskId::Show => {
            let text = say(alloc, "result")?;
            Ok(text)
        }
        TaskId::Of(_) => {
            let text = say(alloc, "unknown")?;
            Ok(text)
        }
    }
}

/// The whole name of a task behind its words.
pub fn task_tip(alloc: Global, scene: &Scene, task: &Task) -> Result<Plain, Memory>
    ensures title { IfOk result (λ t. t ≡ shown (row_title (row_view scene.now task.now))) }
{
    match scene.desc_of(task) {
        Some(known) => {
            let tip = own_tip(alloc, &task.id, known)?;
            Ok(tip)
        }
        None => {
            let name = task_name(alloc, &task.id)?;
            Ok(name)
        }
    }
}

/// The whole name of a task behind the words of this description, where that is its own.
fn own_tip(alloc: Global, id: &TaskId, known: &Known) -> Result<Plain, Memory>
    ensures title { IfOk result (λ t. t ≡ shown (task_title (own_desc id.now (Some (known_view known.now))) id.now)) }
{
    if is_own(id, &known.name) {
        let tip = known_tip(alloc, known)?;
        return Ok(tip);
    }
    let name = task_name(alloc, id)?;
    Ok(name)
}

/// The whole name of a description behind its words.
pub fn known_tip(alloc: Global, known: &Known) -> Result<Plain, Memory>
    ensures title { IfOk result (λ t. t ≡ shown (named_title (known_view known.now))) }
{
    let text = label_of(alloc, known)?;
    let mut tip = text.words;
    tip.put(", ".as_bytes())?;
    tip.put_all(&text.whole)?;
    Ok(tip)
}

fn task_name(alloc: Global, id: &TaskId) -> Result<Plain, Memory>
    ensures name { IfOk result (λ t. t ≡ shown (whole_name id.now)) }
{
    match id {
        TaskId::Show => {
            let name = say(alloc, "result")?;
            Ok(name)
        }
        TaskId::Of(name) => {
            let digits = whole(alloc, name)?;
            Ok(digits)
        }
    }
}

/// Words of the program's own.
pub fn say(alloc: Global, words: &str) -> Result<Plain, Memory>
    ensures words { IfOk result (λ t. t ≡ shown words.now) }
{
    let mut text = Plain::new(alloc);
    text.put(words.as_bytes())?;
    Ok(text)
}
