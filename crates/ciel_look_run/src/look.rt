//! The call that the program makes.

ghost use Rattle.std.specs.Prelude.{◌≡◌, IfErr, IfOk, MatchOption};
ghost use Rattle.ciel_look_tasks.specs.Seen.{IsSeenOf};
ghost use Rattle.ciel_look_tasks.specs.SceneView.{scene_view};
ghost use Rattle.ciel_look_tasks.specs.View.{ids};
ghost use Rattle.ciel_look_run.specs.Ends.{Because, HasStory, IsNoLine, IsOf, IsUnwritten, IsWriteEnd, NoTaskOf, Put, Unread, Untold, Wrote};
ghost use Rattle.ciel_look_run.specs.Ends.{WroteSo};
ghost use Rattle.ciel_look_run.specs.Line as seen;
ghost use Rattle.ciel_look_run.specs.Line.{line_of};
ghost use Rattle.ciel_look_run.specs.View.{asked_view, line_view};

use crate::ends::Why;
use crate::line::{Asked, Line, read_words};
use ciel_io::files::{FileRefusal, Files};
use ciel_io::sink::Sink;
use ciel_look_picture::picture::picture_of;
use ciel_look_story::story::{NoStory, read_story};
use ciel_look_tasks::make::scene_of;
use ciel_look_tasks::scene::Scene;
use ciel_look_text::text::text_of;
use ciel_look_text::why::why_of;
use sky_base::text::Txt;
use std::alloc::Global;

/// The greatest length of a log.
const MOST: u64 = 268_435_456;

/// Reads the log that the words name, and writes what they ask of it.
pub fn look<F: Files, O: Sink>(alloc: Global, words: &[Txt], files: &mut F, out: &mut O) -> Why
    ensures because { MatchOption (line_of words.now) (IsNoLine result)
        (λ l. Because (F.content files.old l.0) (F.faults files.old) (F.faults files.new) l result) }
    ensures wrote { MatchOption (line_of words.now) (O.written out.new ≡ O.written out.old)
        (λ l. Wrote (F.content files.old l.0) (O.written out.old) (O.written out.new) (O.faults out.old) (O.faults out.new) l.1 result) }
{
    let line = match read_words(words) {
        Ok(line) => line,
        Err(_) => return Why::Memory,
    };
    match line {
        Some(line) => look_at(alloc, &line, files, out),
        None => Why::Usage,
    }
}

/// Reads the log of a line, and writes what it asks.
fn look_at<F: Files, O: Sink>(alloc: Global, line: &Line, files: &mut F, out: &mut O) -> Why
    ensures because { Because (F.content files.old line.now.log) (F.faults files.old) (F.faults files.new) (line_view line.now) result }
    ensures wrote { Wrote (F.content files.old line.now.log) (O.written out.old) (O.written out.new) (O.faults out.old) (O.faults out.new)
        (asked_view line.now.asked) result }
{
    match read_scene(alloc, &line.log, files) {
        Ok(scene) => write(alloc, &scene, &line.asked, out),
        Err(why) => why,
    }
}

/// What is seen of the run whose log stands at a path.
fn read_scene<F: Files>(alloc: Global, path: &Txt, files: &mut F) -> Result<Scene, Why>
    ensures story { IfOk result (λ s. HasStory (F.content files.old path.now) (λ head ts. IsSeenOf head ts (scene_view s))) }
    ensures refused { IfErr result (λ why. (asked : seen.Asked) → Because (F.content files.old path.now) (F.faults files.old) (F.faults files.new)
        (path.now, asked) why) }
    ensures unwritten { IfErr result IsUnwritten }
{
    let bytes = match files.read(alloc, path, MOST) {
        Ok(bytes) => bytes,
        Err(refusal) => return Err(why_unread(path, refusal)),
    };
    let story = match read_story(alloc, bytes.as_slice()) {
        Ok(story) => story,
        Err(refusal) => return Err(why_untold(path, refusal)),
    };
    match scene_of(alloc, story) {
        Ok(scene) => Ok(scene),
        Err(_) => Err(Why::Memory),
    }
}

/// Why a file wasn't read.
fn why_unread(path: &Txt, refusal: FileRefusal) -> Why
    ensures { Unread path.now refusal result }
{
    let Ok(path) = path.share() else {
        return Why::Memory;
    };
    match refusal {
        FileRefusal::Failed => Why::ReadFault { path },
        FileRefusal::TooLong { limit: _ } => Why::TooLong { path },
        FileRefusal::Memory => Why::Memory,
    }
}

/// Why a file has no story.
fn why_untold(path: &Txt, refusal: NoStory) -> Why
    ensures { Untold path.now refusal result }
{
    let Ok(path) = path.share() else {
        return Why::Memory;
    };
    match refusal {
        NoStory::NotLog { at } => Why::NotLog { path, at },
        NoStory::Memory => Why::Memory,
    }
}

/// Writes what is asked.
fn write<O: Sink>(alloc: Global, scene: &Scene, asked: &Asked, out: &mut O) -> Why
    ensures ends { IsWriteEnd (ids scene.now.roll.tasks.items) (asked_view asked.now) result }
    ensures wrote { WroteSo (IsOf (asked_view asked.now) (scene_view scene.now)) (O.written out.old) (O.written out.new) (O.faults out.old)
        (O.faults out.new) (asked_view asked.now) result }
{
    match asked {
        Asked::Text => write_text(alloc, scene, out),
        Asked::Why { digits } => write_why(alloc, scene, digits, out),
        Asked::Picture => write_picture(alloc, scene, out),
    }
}

/// Writes the text.
fn write_text<O: Sink>(alloc: Global, scene: &Scene, out: &mut O) -> Why
    ensures ends { IsWriteEnd (ids scene.now.roll.tasks.items) seen.text result }
    ensures wrote { WroteSo (IsOf seen.text (scene_view scene.now)) (O.written out.old) (O.written out.new) (O.faults out.old)
        (O.faults out.new) seen.text result }
{
    let lines = match text_of(alloc, scene) {
        Ok(lines) => lines,
        Err(_) => return Why::Memory,
    };
    put(out, lines.as_slice())
}

/// Writes why a task was started.
fn write_why<O: Sink>(alloc: Global, scene: &Scene, digits: &Txt, out: &mut O) -> Why
    ensures ends { IsWriteEnd (ids scene.now.roll.tasks.items) (seen.why digits.now) result }
    ensures wrote { WroteSo (IsOf (seen.why digits.now) (scene_view scene.now)) (O.written out.old) (O.written out.new) (O.faults out.old)
        (O.faults out.new) (seen.why digits.now) result }
{
    let found = match why_of(alloc, scene, digits) {
        Ok(found) => found,
        Err(_) => return Why::Memory,
    };
    match found {
        Some(lines) => put(out, lines.as_slice()),
        None => no_task(digits),
    }
}

/// Writes the picture.
fn write_picture<O: Sink>(alloc: Global, scene: &Scene, out: &mut O) -> Why
    ensures ends { IsWriteEnd (ids scene.now.roll.tasks.items) seen.picture result }
    ensures wrote { WroteSo (IsOf seen.picture (scene_view scene.now)) (O.written out.old) (O.written out.new) (O.faults out.old)
        (O.faults out.new) seen.picture result }
{
    let picture = match picture_of(alloc, scene) {
        Ok(picture) => picture,
        Err(_) => return Why::Memory,
    };
    put(out, picture.as_slice())
}

/// No task was started whose name begins so.
fn no_task(digits: &Txt) -> Why
    ensures { NoTaskOf digits.now result }
{
    match digits.share() {
        Ok(digits) => Why::NoTask { digits },
        Err(_) => Why::Memory,
    }
}

/// Puts a text on the output.
fn put<O: Sink>(out: &mut O, text: &[u8]) -> Why
    ensures put { Put (O.written out.old) (O.written out.new) (O.faults out.old) (O.faults out.new) text.now result }
{
    match out.put(text) {
        Ok(()) => Why::Done,
        Err(_) => Why::WriteFault,
    }
}
