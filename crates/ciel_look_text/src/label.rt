//! Words of the program's own, counts, and names with the words of what they name.

ghost use Rattle.std.specs.Prelude.{◌≡◌, ◌-◌, [], ◌++◌, IfOk, codes, cond, decimal, length, map};
ghost use Rattle.sky_base.specs.ObjectView.{desc_view};
ghost use Rattle.ciel_look_words.specs.Words.{digits, words};
ghost use Rattle.ciel_look_tasks.specs.Known.{knowns, named_at};
ghost use Rattle.ciel_look_tasks.specs.Heads.{own_desc};
ghost use Rattle.ciel_look_text.specs.Says.{Says};
ghost use Rattle.ciel_look_text.specs.Words.{and_more, counted, led, named, row, task_name, words_of};

use ciel_look_shown::plain::Plain;
use ciel_look_tasks::scene::{Scene, Task, is_own};
use ciel_look_words::words::{digits, words};
use sky_base::name::Name;
use sky_base::object::{Desc1, TaskId};
use sky_base::text::Memory;
use std::alloc::Global;

/// How many orders of a task, and how many names in a row, are told one by one.
pub const MOST_TOLD: usize = 8;

/// Puts words of the program's own.
pub fn say(line: &mut Plain, text: &str) -> Result<(), Memory>
    ensures said { IfOk result (λ _. Says line.old text.now line.new) }
{
    line.put(text.as_bytes())?;
    Ok(())
}

/// Puts one of two texts, the first one where this is the first.
pub fn say_lead(line: &mut Plain, first: bool, lead: &str, more: &str) -> Result<(), Memory>
    ensures said { IfOk result (λ _. Says line.old (cond first lead.now more.now) line.new) }
{
    if first {
        say(line, lead)?;
        return Ok(());
    }
    say(line, more)?;
    Ok(())
}

/// Puts a number.
pub fn say_number(line: &mut Plain, number: u64) -> Result<(), Memory>
    ensures said { IfOk result (λ _. Says line.old (decimal number) line.new) }
{
    line.put_number(number)?;
    Ok(())
}

/// Puts a number behind words of the program's own.
pub fn say_with(line: &mut Plain, text: &str, number: u64) -> Result<(), Memory>
    ensures said { IfOk result (λ _. Says line.old (text.now ++ decimal number) line.new) }
{
    say(line, text)?;
    say_number(line, number)?;
    Ok(())
}

/// Puts how many there are of something.
pub fn say_count(line: &mut Plain, count: u64, one: &str, more: &str) -> Result<(), Memory>
    ensures said { IfOk result (λ _. Says line.old (counted count one.now more.now) line.new) }
{
    say_number(line, count)?;
    say_lead(line, count == 1, one, more)?;
    Ok(())
}

/// Puts how many started tasks had ended.
pub fn say_ends(line: &mut Plain, ends: u64) -> Result<(), Memory>
    ensures said { IfOk result (λ _. Says line.old (counted ends (codes " end") (codes " ends")) line.new) }
{
    say_count(line, ends, " end", " ends")?;
    Ok(())
}

/// Puts the first digits of a name.
pub fn say_digits(alloc: Global, line: &mut Plain, name: &Name) -> Result<(), Memory>
    ensures said { IfOk result (λ _. Says line.old (digits name.now) line.new) }
{
    let text = digits(alloc, name)?;
    line.put_all(&text)?;
    Ok(())
}

/// Puts a task, by the first digits of its name.
pub fn say_task(alloc: Global, line: &mut Plain, id: &TaskId) -> Result<(), Memory>
    ensures said { IfOk result (λ _. Says line.old (task_name id.now) line.new) }
{
    match id {
        TaskId::Show => {
            say(line, "show result")?;
            Ok(())
        }
        TaskId::Of(name) => {
            say_digits(alloc, line, name)?;
            Ok(())
        }
    }
}

/// Puts the words of a description.
fn say_desc(alloc: Global, line: &mut Plain, desc: &Desc1) -> Result<(), Memory>
    ensures said { IfOk result (λ _. Says line.old (words (desc_view desc.now)) line.new) }
{
    let text = words(alloc, desc)?;
    line.put_all(&text)?;
    Ok(())
}

/// Puts the words of a description behind a space.
fn say_words(alloc: Global, line: &mut Plain, desc: &Desc1) -> Result<(), Memory>
    ensures said { IfOk result (λ _. Says line.old (codes " " ++ words (desc_view desc.now)) line.new) }
{
    say(line, " ")?;
    say_desc(alloc, line, desc)?;
    Ok(())
}

/// Puts the words of a task behind a space, where they are known.
pub fn say_own(alloc: Global, line: &mut Plain, scene: &Scene, task: &Task) -> Result<(), Memory>
    ensures said { IfOk result (λ _. Says line.old
        (words_of (own_desc task.now.id (named_at scene.now.known.all.items task.now.known))) line.new) }
{
    match scene.desc_of(task) {
        Some(known) => {
            if is_own(&task.id, &known.name) {
                say_words(alloc, line, &known.desc)?;
                return Ok(());
            }
            Ok(())
        }
        None => Ok(()),
    }
}

/// Puts a name: its first digits, and the words of what it names.
pub fn say_name(alloc: Global, line: &mut Plain, scene: &Scene, name: &Name) -> Result<(), Memory>
    ensures said { IfOk result (λ _. Says line.old (named (knowns scene.now.known.all.items) name.now) line.new) }
{
    say_digits(alloc, line, name)?;
    match scene.find(name) {
        Some(known) => {
            say_words(alloc, line, &known.desc)?;
            Ok(())
        }
        None => Ok(()),
    }
}

/// Puts names in a row.
pub fn say_row(alloc: Global, line: &mut Plain, scene: &Scene, names: &[Name]) -> Result<(), Memory>
    ensures said { IfOk result (λ _. Says line.old (row (knowns scene.now.known.all.items) names.now) line.new) }
{
    if names.is_empty() {
        say(line, "nothing")?;
        return Ok(());
    }
    let told = names.len().min(MOST_TOLD);
    say_names(alloc, line, scene, &names[..told])?;
    say_others(line, names.len() - told)?;
    Ok(())
}

/// Puts each of these names.
fn say_names(alloc: Global, line: &mut Plain, scene: &Scene, names: &[Name]) -> Result<(), Memory>
    ensures said { IfOk result (λ _. Says line.old (led [] (codes ", ") (map (named (knowns scene.now.known.all.items)) names.now)) line.new) }
{
    let mut first = true;
    for name in names {
        say_lead(line, first, "", ", ")?;
        say_name(alloc, line, scene, name)?;
        first = false;
    }
    Ok(())
}

/// Puts how many other names there are.
fn say_others(line: &mut Plain, count: usize) -> Result<(), Memory>
    ensures said { IfOk result (λ _. Says line.old (and_more count) line.new) }
{
    if count == 0 {
        return Ok(());
    }
    say_with(line, " and ", count as u64)?;
    say(line, " more")?;
    Ok(())
}
