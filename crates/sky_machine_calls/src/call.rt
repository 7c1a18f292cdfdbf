// Calls: a body is opened with the variables that the function captured and its parameters bound, and closed with the
// caller's variables.

ghost use Rattle.std.specs.Prelude.{◌≡◌, ◌≤◌, ◌<◌, ◌+◌, ◌*◌, ℕ, List, Some, None, IfOk, IfErr, MatchOption, length};
ghost use Rattle.sky_base.specs.Kept.{Kept};
ghost use Rattle.sky_base.specs.View.{view};
ghost use Rattle.sky_base.specs.Tree.{Place, Exps, exps_nodes};
ghost use Rattle.sky_base.specs.TreeView.{at, exps_view, steps_view};
ghost use Rattle.sky_base.specs.Res as logic;
ghost use Rattle.sky_base.specs.Res.{visits, others, fails};
ghost use Rattle.sky_base.specs.Eval.{World, called};
ghost use Rattle.sky_base_law.specs.Opened.{HasExps, HasSteps};
ghost use Rattle.sky_base_law.specs.Nodes.{node_at};
ghost use Rattle.sky_base_scope.specs.Plain.{Pairs, Vars};
ghost use Rattle.sky_base_scope.specs.RunView.{KeptVals, KeptPairs};
ghost use Rattle.sky_machine_entries.specs.Config.{Run, body_in, goes_on, rest_in, config, opened};
ghost use Rattle.sky_machine_entries.specs.Entries.{entry_of, forms};
ghost use Rattle.sky_machine_entries.specs.declared.control.End.{End};
ghost use Rattle.sky_machine_entries.specs.Falls.{GoesOut};
ghost use Rattle.sky_machine_entries.specs.Ready.{Ready, AllReady, Goes};
ghost use Rattle.sky_machine_calls.specs.Places.{args_from, steps_from, ArgsFit, StepsFit};

use sky_base::fault::FaultKind;
use sky_base::text::{Memory, Txt};
use sky_base::value::{Pairs, Vals, Value};
use sky_base_scope::state::State;
use sky_machine_code::code::Code;
use sky_machine_entries::control::{Control, fail};
use sky_machine_entries::entry::{Arg, Entry, InPostfix, Open};
use sky_machine_entries::list::push;
use sky_machine_entries::visit::visit;
use sky_machine_stmts::block::open_block;
use std::alloc::Global;

/// A function that may be called: its name, and what it captured.
#[derive(Drop)]
pub struct Callable<'a> {
    pub name: &'a Txt,
    pub caught: &'a Pairs,
}

/// Whether a value may be called on these arguments: the function, or the fault.
#[tactic(auto, using(sky_base_scope::proofs::Vars::calls))]
fn callee<'a>(code: &Code, fun: &'a Value, args: &Vals) -> Result<Callable<'a>, FaultKind>
    requires { Kept (view fun.now) }
    ensures ok { IfOk result (λ g. (w : World (List ℕ)) (p : Place) (st : Vars) (k : List ℕ → Pairs → Run) → w.script ≡ code.now
        → called w (view fun.now) args.now p st k ≡ k g.name.now g.caught.now) }
    ensures kept { IfOk result (λ g. KeptPairs g.caught.now) }
    ensures err { IfErr result (λ e. (w : World (List ℕ)) (p : Place) (st : Vars) (k : List ℕ → Pairs → Run) → w.script ≡ code.now
        → called w (view fun.now) args.now p st k ≡ fails e p st) }
{
    let Value::Fun { name, caught } = fun else {
        return Err(FaultKind::BadKind);
    };
    let Some(found) = code.program().find(name) else {
        return Err(FaultKind::BadKind);
    };
    if found.params.as_slice().len() != args.len() {
        return Err(FaultKind::WrongCount);
    }
    Ok(Callable { name, caught })
}

/// A call, whose arguments are all done: it is visited, and opens its body.
pub fn call<'a>(
    alloc: Global,
    code: &Code<'a>,
    state: &mut State,
    left: &mut u32,
    entries: &mut Vec<Entry<'a>>,
    call: Arg<'a>,
) -> Result<Control<'a>, Memory>
    requires ready { AllReady code.now entries.old.items }
    requires room { opened (forms entries.old.items) + left.old ≡ others }
    requires within { state.old.count ≤ visits }
    requires args { HasExps (λ i. node_at code.now i) (exps_view call.more.now) call.next }
    requires steps { HasSteps (λ i. node_at code.now i) (steps_view call.rest.now) (call.next + exps_nodes (exps_view call.more.now)) }
    requires fun { Kept (view call.fun) }
    requires values { KeptVals call.args }
    requires fits { ArgsFit call.step (exps_view call.more.now) (steps_view call.rest.now) }
    requires done { exps_view call.more.now ≡ Exps.no_exps }
    ensures same { IfOk result (λ c. (w : World (List ℕ)) → w.script ≡ code.now → config w entries.new.items c state.new
        ≡ rest_in w entries.old.items (args_from w (body_in w (forms entries.old.items)) call.entry state.old)) }
    ensures ready { IfOk result (λ c. AllReady code.now entries.new.items) }
    ensures goes { IfOk result (λ c. Goes code.now c) }
    ensures room { IfOk result (λ c. opened (forms entries.new.items) + left.new ≡ others) }
    ensures falls { IfOk result (λ c. GoesOut End.Goes state.old.count entries.old.items state.new.count entries.new.items c) }
{
    let Arg {
        node,
        step,
        next,
        line,
        col,
        fun,
        args,
        more: _,
        rest,
    } = call;
    if !visit(state, line, col) {
        return Ok(fail(FaultKind::TooLong, line, col));
    }
    match callee(code, &fun, &args) {
        Err(kind) => Ok(fail(kind, line, col)),
        Ok(callee) => {
            if *left == 0 {
                return Ok(fail(FaultKind::TooDeep, line, col));
            }
            let Some(body) = code.body(callee.name) else {
                return Ok(fail(FaultKind::BadKind, line, col));
            };
            let mut inner = State::new(alloc, state.count());
            inner.bind(callee.caught, body.params, &args)?;
            let caller = std::mem::replace(state, inner);
            *left -= 1;
            let fun = callee.name.share()?;
            push(
                entries,
                Entry::Postfix(InPostfix::Open(Open {
                    node,
                    step,
                    next,
                    fun,
                    caller,
                    rest,
                })),
            )?;
            let control = open_block(code, entries, body.node, body.block)?;
            Ok(control)
        }
    }
}
