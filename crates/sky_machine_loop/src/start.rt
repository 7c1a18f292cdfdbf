// A call begins: the variables of its body are those that the function captured and the parameters, and the first
// statement is next.

ghost use Rattle.std.specs.Prelude.{◌≡◌, ◌≤◌, ℕ, List, [], IfOk};
ghost use Rattle.sky_base.specs.Tree.{nowhere};
ghost use Rattle.sky_base.specs.Res.{visits, others, bodies};
ghost use Rattle.sky_base.specs.Eval.{World, body_at};
ghost use Rattle.sky_base.specs.See.{start_st};
ghost use Rattle.sky_base_scope.specs.RunView.{KeptVals, KeptPairs};
ghost use Rattle.sky_machine_entries.specs.Config.{config, opened};
ghost use Rattle.sky_machine_entries.specs.Entries.{forms};
ghost use Rattle.sky_machine_entries.specs.Ready.{AllReady, Goes};
ghost use Rattle.sky_machine_parts.specs.Made.{RunsOn};
ghost use Rattle.sky_machine_loop.specs.Stops.{Reaches, Grew, StopReady};

use crate::run::{Stop, run_on};
use ciel_name::name::Namer;
use sky_base::fault::FaultKind;
use sky_base::object::Named;
use sky_base::text::{Memory, Txt};
use sky_base::value::{Pairs, Vals};
use sky_base_scope::state::State;
use sky_machine_calls::block::open_block;
use sky_machine_code::code::Code;
use sky_machine_entries::control::{Control, fail};
use sky_machine_entries::entry::Entry;
use sky_machine_parts::made::Ground;

/// How many bodies a task may have open beside its own.
pub const MOST_OPEN: u32 = 63;

/// A call of a function on arguments begins, with no form under way before: the state that it begins in is made of a
/// new one, and what is to be done next is given. Where there is no such function that is the end with the fault
/// BadKind.
pub fn start<'a>(
    code: &Code<'a>,
    state: &mut State,
    entries: &mut Vec<Entry<'a>>,
    fun: &Txt,
    caught: &Pairs,
    args: &Vals,
) -> Result<Control<'a>, Memory>
    requires state { state.old ≡ start_st }
    requires none { entries.old.items ≡ [] }
    requires caught { KeptPairs caught.now }
    requires args { KeptVals args.now }
    ensures same { IfOk result (λ c. (w : World (List ℕ)) → w.script ≡ code.now → config w entries.new.items c state.new
        ≡ body_at w bodies fun.now caught.now args.now nowhere start_st) }
    ensures ready { IfOk result (λ c. AllReady code.now entries.new.items) }
    ensures goes { IfOk result (λ c. Goes code.now c) }
    ensures opened { IfOk result (λ c. opened (forms entries.new.items) ≡ 0) }
    ensures count { IfOk result (λ c. state.new.count ≡ 0) }
{
    let Some(body) = code.body(fun) else {
        return Ok(fail(FaultKind::BadKind, 0, 0));
    };
    state.bind(caught, body.params, args)?;
    let control = open_block(code, entries, body.node, body.block)?;
    Ok(control)
}

/// Runs a call of a function on arguments from its start until its first wait or its end.
#[tactic(auto, unfolding(sky_base::specs::Res::others))]
pub fn run_call<'a, 'b, N: Namer>(
    ground: &Ground<'b, 'a, N>,
    state: &mut State,
    made: &mut Vec<Named>,
    entries: &mut Vec<Entry<'a>>,
    fun: &Txt,
    caught: &Pairs,
    args: &Vals,
) -> Result<Stop, Memory>
    requires state { state.old ≡ start_st }
    requires none { entries.old.items ≡ [] }
    requires caught { KeptPairs caught.now }
    requires args { KeptVals args.now }
    ensures reaches { IfOk result (λ s. (w : World (List ℕ)) → RunsOn w ground.now.code.now (N.digest ground.now.namer.now)
        → Reaches (body_at w bodies fun.now caught.now args.now nowhere start_st) s (forms entries.new.items) state.new) }
    ensures made { IfOk result (λ s. (w : World (List ℕ)) → RunsOn w ground.now.code.now (N.digest ground.now.namer.now)
        → Grew (N.digest ground.now.namer.now) made.old.items made.new.items (body_at w bodies fun.now caught.now args.now nowhere start_st)) }
    ensures ready { IfOk result (λ s. AllReady ground.now.code.now entries.new.items) }
    ensures kept { IfOk result StopReady }
    ensures within { IfOk result (λ s. state.new.count ≤ visits) }
{
    let mut left = MOST_OPEN;
    let control = start(ground.code, state, entries, fun, caught, args)?;
    let stop = run_on(ground, state, &mut left, made, entries, control)?;
    Ok(stop)
}
