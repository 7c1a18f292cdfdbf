// The frames of the bodies that are open, from the forms under way: each open call ends a frame, which has the caller's
// variables, and begins the next.

ghost use Rattle.std.specs.Prelude.{◌≡◌, ◌∷◌, [], IfOk, MatchOption, Some, None, List};
ghost use Rattle.sky_base.specs.Read.{frames_of};
ghost use Rattle.sky_base.specs.Res.{opens};
ghost use Rattle.sky_base_scope.specs.Plain.{Pairs};
ghost use Rattle.sky_machine_entries.specs.Entries.{Form, entry_of, forms};
ghost use Rattle.sky_machine_save.specs.Saving.{CanSave, AllCanSave, part_of, put_on, closed, with_rest};

use crate::kept::keep;
use crate::place::place;
use sky_base::text::{Memory, Txt};
use sky_base::value::{Pairs, Value};
use sky_machine_entries::entry::{Entry, InPostfix, Open};
use sky_state::frame::{Frame, Frames, Stack, Todo, Todos};
use std::alloc::Global;
use std::mem;

/// What is saved so far: the frames that are whole, and the one that is in work.
#[derive(Drop)]
struct Saving {
    done: Vec<Frame>,
    fun: Txt,
    stack: Vec<Value>,
    todo: Vec<Todo>,
}

/// The frames of the forms under way, the outermost first: the function of the bottom frame is this one, and the variables
/// of the innermost body are these. Values are shared, so it takes time in the number of forms and of the values that they keep.
///
/// Answers `Memory` for want of memory.
pub fn save(alloc: Global, entries: &[Entry], fun: &Txt, vars: &Pairs) -> Result<Frames, Memory>
    requires { AllCanSave (forms entries.now) }
    ensures { IfOk result (λ fs. fs ≡ frames_of (forms entries.now) fun.now vars.now) }
{
    let mut saving = begin(alloc, fun)?;
    for entry in entries {
        put(alloc, &mut saving, entry)?;
    }
    let frames = finish(saving, vars)?;
    Ok(frames)
}

/// Nothing is saved yet.
fn begin(alloc: Global, fun: &Txt) -> Result<Saving, Memory>
    ensures { IfOk result (λ s. part_of s ≡ record { done = []; fun = fun.now; stack = []; todo = [] }) }
{
    Ok(Saving {
        done: Vec::new(alloc),
        fun: fun.share()?,
        stack: Vec::new(alloc),
        todo: Vec::new(alloc),
    })
}

/// Saves one form more.
fn put(alloc: Global, saving: &mut Saving, entry: &Entry) -> Result<(), Memory>
    requires { CanSave (entry_of entry.now) }
    ensures { IfOk result (λ _. (fr : List Form) (xs : Pairs) → with_rest (part_of saving.old) (entry_of entry.now ∷ fr) xs
        ≡ with_rest (part_of saving.new) fr xs) }
{
    add(alloc, saving, entry)?;
    match opening(entry) {
        Some(open) => close(alloc, saving, &open.fun, open.caller.vars())?,
        None => {}
    }
    Ok(())
}

/// The form's node, its step and its values are put on the frame in work.
fn add(alloc: Global, saving: &mut Saving, entry: &Entry) -> Result<(), Memory>
    requires { CanSave (entry_of entry.now) }
    ensures { IfOk result (λ _. part_of saving.new ≡ put_on (part_of saving.old) (entry_of entry.now)) }
{
    keep(alloc, &mut saving.stack, entry)?;
    match saving.todo.push(place(entry)) {
        Ok(()) => Ok(()),
        Err(_) => Err(Memory),
    }
}

/// The call that the form opens, if it is an open call.
fn opening<'a, 'b>(entry: &'b Entry<'a>) -> Option<&'b Open<'a>>
    ensures { MatchOption result (opens (entry_of entry.now) ≡ None) (λ o. opens (entry_of entry.now) ≡ Some (o.now.fun, o.now.caller.vars)) }
{
    match entry {
        Entry::Postfix(InPostfix::Open(open)) => Some(open),
        _ => None,
    }
}

/// The frame in work is whole, with these variables; the next one is of this function.
fn close(alloc: Global, saving: &mut Saving, fun: &Txt, vars: &Pairs) -> Result<(), Memory>
    ensures { IfOk result (λ _. part_of saving.new ≡ closed (part_of saving.old) fun.now vars.now) }
{
    let frame = Frame {
        fun: mem::replace(&mut saving.fun, fun.share()?),
        vars: vars.copy()?,
        stack: Stack::of(mem::replace(&mut saving.stack, Vec::new(alloc))),
        todo: Todos::of(mem::replace(&mut saving.todo, Vec::new(alloc))),
    };
    match saving.done.push(frame) {
        Ok(()) => Ok(()),
        Err(_) => Err(Memory),
    }
}

/// All frames; the innermost body has these variables.
fn finish(saving: Saving, vars: &Pairs) -> Result<Frames, Memory>
    ensures { IfOk result (λ fs. fs ≡ with_rest (part_of saving) [] vars.now) }
{
    let Saving {
        mut done,
        fun,
        stack,
        todo,
    } = saving;
    let frame = Frame {
        fun,
        vars: vars.copy()?,
        stack: Stack::of(stack),
        todo: Todos::of(todo),
    };
    match done.push(frame) {
        Ok(()) => Ok(Frames::of(done)),
        Err(_) => Err(Memory),
    }
}
