// A call runs up to its next wait or its end.

ghost use Rattle.std.specs.Prelude.{◌≡◌, ◌≤◌, ◌<◌, ◌+◌, ◌*◌, ℕ, List, [], ◌∷◌, IfOk, length};
ghost use Rattle.sky_base.specs.Kept.{Kept};
ghost use Rattle.sky_base.specs.View.{view};
ghost use Rattle.sky_base.specs.TreeView.{exp_view};
ghost use Rattle.sky_base.specs.Res as logic;
ghost use Rattle.sky_base.specs.Res.{visits, others};
ghost use Rattle.sky_base.specs.Eval.{World, eval};
ghost use Rattle.sky_base_law.specs.Opened.{HasExp};
ghost use Rattle.sky_base_law.specs.Nodes.{node_at, pre_script};
ghost use Rattle.sky_base_scope.specs.Plain.{Vars};
ghost use Rattle.sky_machine_entries.specs.Config.{body_in, goes_on, rest_in, config, opened};
ghost use Rattle.sky_machine_entries.specs.Entries.{end_of, entry_of, forms};
ghost use Rattle.sky_machine_entries.specs.Falls.{GoesIn, GoesOut, to_do, work};
ghost use Rattle.sky_machine_entries.specs.Ready.{EndReady, Ready, AllReady, Goes};
ghost use Rattle.sky_machine_parts.specs.Made.{whole, RunsOn};
ghost use Rattle.sky_machine_loop.specs.Stops.{Reaches, Grew, StopReady};

use crate::begin::begin;
use crate::got::finish;
use ciel_name::name::Namer;
use sky_base::object::Named;
use sky_base::stmt::Stmt;
use sky_base::text::Memory;
use sky_base::tree::Expr;
use sky_base_scope::state::State;
use sky_machine_calls::at_once::stmt_end;
use sky_machine_calls::stmt::perform;
use sky_machine_code::code::Code;
use sky_machine_entries::control::{Control, End, Wait};
use sky_machine_entries::entry::Entry;
use sky_machine_entries::list::pop;
use sky_machine_parts::made::Ground;
use std::alloc::Global;

/// What a run has come to.
#[derive(Drop)]
pub enum Stop {
    Ended(End),
    Waits(Wait),
}

/// A step that begins an expression.
fn begun<'a, 'b, N: Namer>(
    ground: &Ground<'b, 'a, N>,
    state: &mut State,
    made: &mut Vec<Named>,
    entries: &mut Vec<Entry<'a>>,
    node: u32,
    e: &'a Expr,
) -> Result<Control<'a>, Memory>
    requires ready { AllReady ground.now.code.now entries.old.items }
    requires goes { Goes ground.now.code.now (Control.Begin node e) }
    requires within { state.old.count ≤ visits }
    ensures same { IfOk result (λ c. (w : World (List ℕ)) → RunsOn w ground.now.code.now (N.digest ground.now.namer.now)
        → whole (N.digest ground.now.namer.now) made.new.items (config w entries.new.items c state.new)
        ≡ whole (N.digest ground.now.namer.now) made.old.items (config w entries.old.items (Control.Begin node e.entry) state.old)) }
    ensures ready { IfOk result (λ c. AllReady ground.now.code.now entries.new.items) }
    ensures goes { IfOk result (λ c. Goes ground.now.code.now c) }
    ensures opened { IfOk result (λ c. opened (forms entries.new.items) ≡ opened (forms entries.old.items)) }
    ensures within { IfOk result (λ c. state.new.count ≤ visits) }
    ensures falls { IfOk result (λ c. work (length (pre_script ground.now.code.now)) entries.new.items c state.new.count < work
        (length (pre_script ground.now.code.now)) entries.old.items (Control.Begin node e.entry) state.old.count) }
{
    let next = begin(ground, state, made, entries, node, e)?;
    Ok(next)
}

/// A step that begins a statement.
fn done<'a>(
    alloc: Global,
    code: &Code<'a>,
    state: &mut State,
    entries: &mut Vec<Entry<'a>>,
    node: u32,
    stmt: &'a Stmt,
) -> Result<Control<'a>, Memory>
    requires ready { AllReady code.now entries.old.items }
    requires goes { Goes code.now (Control.Do node stmt) }
    requires within { state.old.count ≤ visits }
    ensures same { IfOk result (λ c. (w : World (List ℕ)) → w.script ≡ code.now → config w entries.new.items c state.new
        ≡ config w entries.old.items (Control.Do node stmt.entry) state.old) }
    ensures ready { IfOk result (λ c. AllReady code.now entries.new.items) }
    ensures goes { IfOk result (λ c. Goes code.now c) }
    ensures opened { IfOk result (λ c. opened (forms entries.new.items) ≡ opened (forms entries.old.items)) }
    ensures within { IfOk result (λ c. state.new.count ≤ visits) }
    ensures falls { IfOk result (λ c. work (length (pre_script code.now)) entries.new.items c state.new.count < work
        (length (pre_script code.now)) entries.old.items (Control.Do node stmt.entry) state.old.count) }
{
    match stmt_end(alloc, code, state, node, stmt)? {
        Some(end) => Ok(Control::End(end)),
        None => {
            let next = perform(code, state, entries, node, stmt)?;
            Ok(next)
        }
    }
}

/// A step after a piece has ended: the innermost form under way, if there is one, goes on.
fn ended<'a, 'b, N: Namer>(
    ground: &Ground<'b, 'a, N>,
    state: &mut State,
    left: &mut u32,
    made: &mut Vec<Named>,
    entries: &mut Vec<Entry<'a>>,
    end: End,
) -> Result<Control<'a>, Memory>
    requires ready { AllReady ground.now.code.now entries.old.items }
    requires left_to_do { 0 < to_do entries.old.items (Control.End end) }
    requires goes { Goes ground.now.code.now (Control.End end) }
    requires room { opened (forms entries.old.items) + left.old ≡ others }
    requires within { state.old.count ≤ visits }
    ensures same { IfOk result (λ c. (w : World (List ℕ)) → RunsOn w ground.now.code.now (N.digest ground.now.namer.now)
        → whole (N.digest ground.now.namer.now) made.new.items (config w entries.new.items c state.new)
        ≡ whole (N.digest ground.now.namer.now) made.old.items (config w entries.old.items (Control.End end) state.old)) }
    ensures ready { IfOk result (λ c. AllReady ground.now.code.now entries.new.items) }
    ensures goes { IfOk result (λ c. Goes ground.now.code.now c) }
    ensures room { IfOk result (λ c. opened (forms entries.new.items) + left.new ≡ others) }
    ensures within { IfOk result (λ c. state.new.count ≤ visits) }
    ensures falls { IfOk result (λ c. work (length (pre_script ground.now.code.now)) entries.new.items c state.new.count < work
        (length (pre_script ground.now.code.now)) entries.old.items (Control.End end) state.old.count) }
{
    match pop(entries) {
        None => Ok(Control::End(end)),
        Some(entry) => {
            let next = finish(ground, state, left, made, entries, entry, end)?;
            Ok(next)
        }
    }
}

/// Runs until the next wait or the end.
pub fn run_on<'a, 'b, N: Namer>(
    ground: &Ground<'b, 'a, N>,
    state: &mut State,
    left: &mut u32,
    made: &mut Vec<Named>,
    entries: &mut Vec<Entry<'a>>,
    control: Control<'a>,
) -> Result<Stop, Memory>
    requires ready { AllReady ground.now.code.now entries.old.items }
    requires goes { Goes ground.now.code.now control }
    requires room { opened (forms entries.old.items) + left.old ≡ others }
    requires within { state.old.count ≤ visits }
    ensures reaches { IfOk result (λ s. (w : World (List ℕ)) → RunsOn w ground.now.code.now (N.digest ground.now.namer.now)
        → Reaches (config w entries.old.items control.entry state.old) s (forms entries.new.items) state.new) }
    ensures made { IfOk result (λ s. (w : World (List ℕ)) → RunsOn w ground.now.code.now (N.digest ground.now.namer.now)
        → Grew (N.digest ground.now.namer.now) made.old.items made.new.items (config w entries.old.items control.entry state.old)) }
    ensures ready { IfOk result (λ s. AllReady ground.now.code.now entries.new.items) }
    ensures kept { IfOk result StopReady }
    ensures room { IfOk result (λ s. opened (forms entries.new.items) + left.new ≡ others) }
    ensures within { IfOk result (λ s. state.new.count ≤ visits) }
{
    let mut control = control;
    'steps: loop {
        match control {
            Control::Wait(wait) => return Ok(Stop::Waits(wait)),
            Control::End(end) => {
                if entries.is_empty() {
                    return Ok(Stop::Ended(end));
                }
                control = ended(ground, state, left, made, entries, end)?;
            }
            Control::Begin(node, e) => {
                control = begun(ground, state, made, entries, node, e)?;
            }
            Control::Do(node, stmt) => {
                control = done(ground.alloc, ground.code, state, entries, node, stmt)?;
            }
        }
    }
}
