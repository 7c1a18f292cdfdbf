//! A run in lines of text.

ghost use Rattle.std.specs.Prelude.{◌≡◌, ◌++◌, IfOk, map};
ghost use Rattle.ciel_look_tasks.specs.Known.{knowns};
ghost use Rattle.ciel_look_tasks.specs.SceneView.{row_view, scene_view, taken_view};
ghost use Rattle.ciel_look_text.specs.Text.{lines_of, loss_line, task_line, text};

use crate::loss::loss_line;
use crate::sum::sum_line;
use crate::task::task_line;
use ciel_look_shown::lines::Lines;
use ciel_look_tasks::scene::{Loss, Scene, Task};
use sky_base::text::Memory;
use std::alloc::Global;

/// The lines of a run: one for each task, in the order of their first starts; one for each loss; and a sum.
///
/// Answers `Memory` for want of memory.
pub fn text_of(alloc: Global, scene: &Scene) -> Result<Lines, Memory>
    ensures text { IfOk result (λ lines. lines ≡ text (lines_of (scene_view scene.now))) }
{
    let mut lines = Lines::new(alloc);
    put_tasks(alloc, &mut lines, scene, scene.roll.tasks.as_slice())?;
    put_losses(alloc, &mut lines, scene, scene.losses.as_slice())?;
    let line = sum_line(alloc, scene)?;
    lines.put(&line)?;
    Ok(lines)
}

/// A line more for each of these tasks.
fn put_tasks(alloc: Global, lines: &mut Lines, scene: &Scene, tasks: &[Task]) -> Result<(), Memory>
    ensures lines { IfOk result (λ _. lines.new
        ≡ lines.old ++ text (map (task_line (knowns scene.now.known.all.items)) (map (row_view scene.now) tasks.now))) }
{
    for task in tasks {
        let line = task_line(alloc, scene, task)?;
        lines.put(&line)?;
    }
    Ok(())
}

/// A line more for each of these losses.
fn put_losses(
    alloc: Global,
    lines: &mut Lines,
    scene: &Scene,
    losses: &[Loss],
) -> Result<(), Memory>
    ensures lines { IfOk result (λ _. lines.new
        ≡ lines.old ++ text (map (loss_line (knowns scene.now.known.all.items)) (map (taken_view scene.now) losses.now))) }
{
    for loss in losses {
        let line = loss_line(alloc, scene, loss)?;
        lines.put(&line)?;
    }
    Ok(())
}
