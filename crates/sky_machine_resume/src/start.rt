// A call begins, and comes to its first wait or to its end.

ghost use Rattle.std.specs.Prelude.{◌≡◌, ◌++◌, ℕ, List, [], map, IfOk};
ghost use Rattle.sky_base.specs.Val as logic;
ghost use Rattle.sky_base.specs.Tree.{nowhere};
ghost use Rattle.sky_base.specs.Res.{others, bodies};
ghost use Rattle.sky_base.specs.Eval.{body_at};
ghost use Rattle.sky_base.specs.Read.{segment};
ghost use Rattle.sky_base.specs.See.{start_st};
ghost use Rattle.sky_state.specs.Fits.{FitsRun};
ghost use Rattle.sky_state.specs.Stand.{Stand};
ghost use Rattle.sky_state.specs.Start.{StartsCall};
ghost use Rattle.sky_machine_resume.specs.Comes.{StepsFit, over_names, with_name, run_of, bottom_vars, Comes};
ghost use Rattle.sky_machine_resume.specs.Standing.{GoesOnAs, MakesAs};

use crate::on::{Came, bottom, run_from};
use ciel_name::name::Namer;
use sky_base::fault::{Fault, FaultKind};
use sky_base::object::Object;
use sky_base::text::Memory;
use sky_base::value::Pairs;
use sky_base_scope::state::State;
use sky_machine_loop::block::open_block;
use sky_machine_loop::made::Ground;
use sky_machine_numbers::code::Numbered;
use sky_state::state::RunState;
use std::alloc::Global;

/// A call begins at its start: it ends, or it stands at its first wait. What it makes is put at the end of what was spawned, each with
/// its name. After `Memory` the state may only be dropped.
///
/// Answers `Memory` for want of memory.
pub fn begin<'a, 'b, N: Namer>(
    alloc: Global,
    script: &'b Numbered<'a>,
    run: &mut RunState,
    namer: &'b N,
) -> Result<Came, Memory>
    requires steps { StepsFit script.now.code }
    requires fits { FitsRun script.now.code (run_of run.old) }
    requires start { run.old.waits ≡ 0 }
    ensures comes { IfOk result (λ came. (f : List ℕ) (c : logic.Pairs (List ℕ)) (vs : logic.Vals (List ℕ))
        → StartsCall script.now.code f c vs (Stand.run (run_of run.old))
        → Comes f 0 (body_at (over_names (N.digest namer.now) script.now.code) bodies f c vs nowhere start_st) came (run_of run.new)) }
    ensures made { IfOk result (λ came. (f : List ℕ) (c : logic.Pairs (List ℕ)) (vs : logic.Vals (List ℕ))
        → StartsCall script.now.code f c vs (Stand.run (run_of run.old)) → run.new.spawned ≡ run.old.spawned
        ++ map (with_name (N.digest namer.now)) (segment
        (body_at (over_names (N.digest namer.now) script.now.code) bodies f c vs nowhere start_st))) }
    ensures stands { IfOk result (λ came. GoesOnAs (N.digest namer.now) 0 script.now.code (run_of run.old) [] came (run_of run.new)) }
    ensures makes { IfOk result (λ came. MakesAs (N.digest namer.now) 0 script.now.code (run_of run.old) [] run.old.spawned run.new.spawned) }
{
    let came = from_start(alloc, script, run, namer)?;
    Ok(came)
}

/// The body of the bottom frame's function is opened, and the run goes on from there.
#[tactic(auto, unfolding(sky_base::specs::Res::others))]
fn from_start<'a, 'b, N: Namer>(
    alloc: Global,
    script: &'b Numbered<'a>,
    run: &mut RunState,
    namer: &'b N,
) -> Result<Came, Memory>
    requires steps { StepsFit script.now.code }
    requires fits { FitsRun script.now.code (run_of run.old) }
    requires start { run.old.waits ≡ 0 }
    ensures comes { IfOk result (λ came. (f : List ℕ) (c : logic.Pairs (List ℕ)) (vs : logic.Vals (List ℕ))
        → StartsCall script.now.code f c vs (Stand.run (run_of run.old))
        → Comes f 0 (body_at (over_names (N.digest namer.now) script.now.code) bodies f c vs nowhere start_st) came (run_of run.new)) }
    ensures made { IfOk result (λ came. (f : List ℕ) (c : logic.Pairs (List ℕ)) (vs : logic.Vals (List ℕ))
        → StartsCall script.now.code f c vs (Stand.run (run_of run.old)) → run.new.spawned ≡ run.old.spawned
        ++ map (with_name (N.digest namer.now)) (segment
        (body_at (over_names (N.digest namer.now) script.now.code) bodies f c vs nowhere start_st))) }
{
    let fun = bottom(alloc, run)?;
    let mut state = State::of(variables(alloc, run)?, 0);
    let Some(body) = script.code.body(&fun) else {
        return Ok(no_body());
    };
    let mut entries = Vec::new(alloc);
    let mut left = 63;
    let control = open_block(&script.code, &mut entries, body.node, body.block)?;
    let ground = Ground {
        alloc,
        code: &script.code,
        namer,
    };
    let came = run_from(
        &ground,
        run,
        &fun,
        &mut state,
        &mut left,
        &mut entries,
        control,
    )?;
    Ok(came)
}

/// There is no such function, as in no state that fits.
fn no_body() -> Came {
    Came::Ended(Object::Fault(Fault {
        kind: FaultKind::BadKind,
        line: 0,
        col: 0,
    }))
}

/// The variables of the bottom frame.
fn variables(alloc: Global, run: &RunState) -> Result<Pairs, Memory>
    ensures { IfOk result (λ vs. vs ≡ bottom_vars run.now.frames) }
{
    match run.frames.as_slice().first() {
        Some(frame) => frame.vars.copy(),
        None => Ok(Pairs::new(alloc)),
    }
}
