// A call goes on from its wait, up to the next one or to its end.

ghost use Rattle.std.specs.Prelude.{◌≡◌, ◌≤◌, ◌<◌, ◌+◌, ◌-◌, ◌^◌, ◌++◌, ℕ, suc, List, map, IfOk, Some};
ghost use Rattle.sky_base.specs.Val.{list, refs_to, Desc};
ghost use Rattle.sky_base.specs.Kept.{Kept};
ghost use Rattle.sky_base.specs.Res as logic;
ghost use Rattle.sky_base.specs.Res.{visits, others, all_of};
ghost use Rattle.sky_base.specs.Eval.{World, wait_end};
ghost use Rattle.sky_base.specs.Read.{Halt, first_halt, segment, rest_of};
ghost use Rattle.sky_base.specs.ObjectView.{object_view};
ghost use Rattle.sky_base_law.specs.Nodes.{node_at};
ghost use Rattle.sky_machine_entries.specs.Config.{config, opened};
ghost use Rattle.sky_machine_entries.specs.Entries.{forms, end_of};
ghost use Rattle.sky_machine_entries.specs.Ready.{AllReady, AreReady, EndReady, Goes};
ghost use Rattle.sky_machine_save.specs.Saving.{AllCanSave};
ghost use Rattle.sky_state.specs.Fits.{FitsRun};
ghost use Rattle.sky_machine_waits.specs.Waits.{wait_in};
ghost use Rattle.sky_machine_waits.specs.Answers.{ReadsData, AnswersKept};
ghost use Rattle.sky_machine_resume.specs.Standing.{GoesOnAs, MakesAs};
ghost use Rattle.sky_machine_resume.specs.Comes.{StepsFit, over_names, with_name, run_of, LeftAt, object_at, Comes, bottom_fun};

use ciel_name::name::Namer;
use sky_base::object::Object;
use sky_base::text::{Memory, Txt};
use sky_base::value::Value;
use sky_base_scope::state::State;
use sky_machine_entries::control::{Control, End};
use sky_machine_entries::entry::Entry;
use sky_machine_loop::made::Ground;
use sky_machine_loop::run::{Stop, run_on};
use sky_machine_numbers::code::Numbered;
use sky_machine_numbers::nodes::Nodes;
use sky_machine_restore::restore::{Restored, restore};
use sky_machine_save::save::save;
use sky_machine_waits::answer::answered;
use sky_machine_waits::wait::waiting;
use sky_state::spawned::Spawned;
use sky_state::state::RunState;
use std::alloc::Global;
use std::mem;

/// What a call came to.
#[derive(Drop)]
pub enum Came {
    Ended(Object),
    Waits,
}

/// The object of a call that ends so.
fn object_of(end: End) -> Object
    ensures { object_view result ≡ object_at (end_of end) }
{
    match end {
        End::Goes => Object::Data(Value::Null),
        End::Got(value) => Object::Data(value),
        End::Returned(value) => Object::Data(value),
        End::Failed(fault) => Object::Fault(fault),
    }
}

/// How the wait of these forms ends with these objects.
fn end_of_wait(
    alloc: Global,
    nodes: &Nodes,
    entries: &[Entry],
    answers: &[Object],
) -> Result<End, Memory>
    requires list { (ds : List (Desc (List ℕ))) → wait_in nodes.now (forms entries.now) ≡ Some (all_of ds) → Kept (list (refs_to ds)) }
    requires objects { AnswersKept answers.now }
    ensures end { IfOk result (λ e. (w : World (List ℕ)) (q : logic.Wait (List ℕ)) → ReadsData w → wait_in nodes.now (forms entries.now) ≡ Some q
        → end_of e ≡ wait_end w q (map object_view answers.now)) }
    ensures ready { IfOk result EndReady }
{
    match waiting(alloc, nodes, entries)? {
        Some(wait) => {
            let end = answered(alloc, &wait, answers)?;
            Ok(end)
        }
        None => Ok(End::Goes),
    }
}

/// Runs on from what is to be done next, and leaves the stack of the next wait, where there is one.
pub(crate) fn run_from<'a, 'b, N: Namer>(
    ground: &Ground<'b, 'a, N>,
    run: &mut RunState,
    fun: &Txt,
    state: &mut State,
    left: &mut u32,
    entries: &mut Vec<Entry<'a>>,
    control: Control<'a>,
) -> Result<Came, Memory>
    requires ready { AllReady ground.now.code.now entries.old.items }
    requires goes { Goes ground.now.code.now control }
    requires room { opened (forms entries.old.items) + left.old ≡ others }
    requires within { state.old.count ≤ visits }
    requires waits { run.old.waits < 2 ^ 32 - 1 }
    requires saves { (h : Halt (List ℕ)) → first_halt
        (config (over_names (N.digest ground.now.namer.now) ground.now.code.now) entries.old.items control state.old) ≡ Some h
        → AreReady (λ i. node_at ground.now.code.now i) h.forms → AllCanSave h.forms }
    ensures comes { IfOk result (λ c. Comes fun.now run.old.waits
        (config (over_names (N.digest ground.now.namer.now) ground.now.code.now) entries.old.items control.entry state.old) c (run_of run.new)) }
    ensures made { IfOk result (λ c. run.new.spawned ≡ run.old.spawned
        ++ map (with_name (N.digest ground.now.namer.now))
        (segment (config (over_names (N.digest ground.now.namer.now) ground.now.code.now) entries.old.items control.entry state.old))) }
{
    let alloc = ground.alloc;
    let mut made = mem::replace(&mut run.spawned, Spawned::new(alloc)).into_vec();
    let stop = run_on(ground, state, left, &mut made, entries, control)?;
    run.spawned = Spawned::of(made);
    match stop {
        Stop::Ended(end) => Ok(Came::Ended(object_of(end))),
        Stop::Waits(_) => {
            run.frames = save(alloc, entries.as_slice(), fun, state.vars())?;
            run.count = state.count();
            run.waits += 1;
            Ok(Came::Waits)
        }
    }
}

/// A call goes on from the wait at which it stands, with these objects for what it waits for, in order: it ends, or it stands at its
/// next wait. What it makes is put at the end of what was spawned, each with its name. After `Memory` the state may only be dropped.
///
/// Answers `Memory` for want of memory.
pub fn go_on<'a, 'b, N: Namer>(
    alloc: Global,
    script: &'b Numbered<'a>,
    run: &mut RunState,
    answers: &[Object],
    namer: &'b N,
) -> Result<Came, Memory>
    requires same { script.now.nodes ≡ script.now.code }
    requires steps { StepsFit script.now.code }
    requires fits { FitsRun script.now.code (run_of run.old) }
    requires waits { 0 < run.old.waits }
    requires answers { AnswersKept answers.now }
    ensures comes { IfOk result (λ c. (f : List ℕ) (h : Halt (List ℕ)) → LeftAt script.now.code f h (run_of run.old)
        → Comes f run.old.waits (rest_of (over_names (N.digest namer.now) script.now.code) others h (map object_view answers.now)) c
        (run_of run.new)) }
    ensures made { IfOk result (λ c. (f : List ℕ) (h : Halt (List ℕ)) → LeftAt script.now.code f h (run_of run.old) → run.new.spawned
        ≡ run.old.spawned ++ map (with_name (N.digest namer.now))
        (segment (rest_of (over_names (N.digest namer.now) script.now.code) others h (map object_view answers.now)))) }
    ensures stands { IfOk result (λ c. (j : ℕ) → GoesOnAs (N.digest namer.now) (suc j) script.now.code (run_of run.old) answers.now c
        (run_of run.new)) }
    ensures makes { IfOk result (λ c. (j : ℕ) → MakesAs (N.digest namer.now) (suc j) script.now.code (run_of run.old) answers.now run.old.spawned
        run.new.spawned) }
{
    let came = from_wait(alloc, script, run, answers, namer)?;
    Ok(came)
}

/// The stack is opened, its wait is ended, and the run goes on from there.
fn from_wait<'a, 'b, N: Namer>(
    alloc: Global,
    script: &'b Numbered<'a>,
    run: &mut RunState,
    answers: &[Object],
    namer: &'b N,
) -> Result<Came, Memory>
    requires same { script.now.nodes ≡ script.now.code }
    requires steps { StepsFit script.now.code }
    requires fits { FitsRun script.now.code (run_of run.old) }
    requires waits { 0 < run.old.waits }
    requires answers { AnswersKept answers.now }
    ensures comes { IfOk result (λ c. (f : List ℕ) (h : Halt (List ℕ)) → LeftAt script.now.code f h (run_of run.old)
        → Comes f run.old.waits (rest_of (over_names (N.digest namer.now) script.now.code) others h (map object_view answers.now)) c
        (run_of run.new)) }
    ensures made { IfOk result (λ c. (f : List ℕ) (h : Halt (List ℕ)) → LeftAt script.now.code f h (run_of run.old) → run.new.spawned
        ≡ run.old.spawned ++ map (with_name (N.digest namer.now))
        (segment (rest_of (over_names (N.digest namer.now) script.now.code) others h (map object_view answers.now)))) }
{
    let fun = bottom(alloc, run)?;
    let mut left = 64 - run.frames.as_slice().len() as u32;
    let Restored {
        mut entries,
        mut state,
    } = restore(alloc, &script.code, &script.nodes, run)?;
    let end = end_of_wait(alloc, &script.nodes, entries.as_slice(), answers)?;
    let ground = Ground {
        alloc,
        code: &script.code,
        namer,
    };
    let came = run_from(
        &ground,
        run,
        &fun,
        &mut state,
        &mut left,
        &mut entries,
        Control::End(end),
    )?;
    Ok(came)
}

/// The name of the function of the bottom frame.
pub(crate) fn bottom(alloc: Global, run: &RunState) -> Result<Txt, Memory>
    ensures { IfOk result (λ f. f ≡ bottom_fun run.now.frames) }
{
    match run.frames.as_slice().first() {
        Some(frame) => frame.fun.share(),
        None => Txt::new(alloc, ""),
    }
}
