//! The picture of a run.

ghost use Rattle.std.specs.Prelude.{[], IfOk};
ghost use Rattle.ciel_look_tasks.specs.SceneView.{scene_view};
ghost use Rattle.ciel_look_sheet.specs.Drawn.{Draws};
ghost use Rattle.ciel_look_sheet.specs.Picture.{IsPicture};
ghost use Rattle.ciel_look_picture.specs.Nodes.{Shows};

use crate::graph::draw_graph;
use ciel_look_lanes::lanes::draw_lanes;
use ciel_look_sheet::sheet::Sheet;
use ciel_look_shown::markup::Markup;
use ciel_look_shown::plain::Plain;
use ciel_look_tasks::scene::Scene;
use sky_base::text::Memory;
use std::alloc::Global;

/// The picture of a run: it stands alone, and is one element.
///
/// Answers `Memory` for want of memory.
pub fn picture_of(alloc: Global, scene: &Scene) -> Result<Markup, Memory>
    ensures picture { IfOk result IsPicture }
    ensures shows { IfOk result (Shows (scene_view scene.now)) }
{
    let mut sheet = Sheet::new(alloc);
    let head = head_of(alloc, scene)?;
    sheet.text(8, 24, 15, "#222", &head)?;
    draw_legend(alloc, &mut sheet)?;
    draw_lanes(alloc, &mut sheet, scene)?;
    draw_graph(alloc, &mut sheet, scene)?;
    let picture = sheet.finish()?;
    Ok(picture)
}

/// What the picture is of.
fn head_of(alloc: Global, scene: &Scene) -> Result<Plain, Memory> {
    let mut head = Plain::new(alloc);
    let again = scene.runs.iter().filter(|run| run.again).count();
    put_count(&mut head, scene.runs.len(), " start of ", " starts of ")?;
    put_count(&mut head, scene.roll.tasks.len(), " task, ", " tasks, ")?;
    put_count(&mut head, scene.losses.len(), " loss, ", " losses, ")?;
    put_count(&mut head, again, " begun again, ", " begun again, ")?;
    put_count(&mut head, scene.copies.len(), " copy", " copies")?;
    Ok(head)
}

fn put_count(text: &mut Plain, count: usize, one: &str, more: &str) -> Result<(), Memory> {
    text.put_number(count as u64)?;
    text.put(if count == 1 {
        one.as_bytes()
    } else {
        more.as_bytes()
    })
}

/// What the colours and lines say.
fn draw_legend(alloc: Global, sheet: &mut Sheet) -> Result<(), Memory>
    ensures drawn { IfOk result (λ _. Draws [] [] 0 sheet.old.marks sheet.new.marks) }
{
    let mut text = Plain::new(alloc);
    text.put(
        "blue: a call; green: an executor; orange: the result; dashed: it waited or was cut; red rim: begun again; ".as_bytes(),
    )?;
    text.put("red cross: the worker was lost; dotted arrow: a copy".as_bytes())?;
    sheet.text(8, 44, 11, "#777", &text)?;
    Ok(())
}
