// Chains of operators, and comparisons, which have one operator.

ghost use Rattle.std.specs.Prelude.{◌≡◌, ◌≤◌, ◌<◌, ◌+◌, ◌*◌, ℕ, List, IfOk, length};
ghost use Rattle.sky_base.specs.Kept.{Kept};
ghost use Rattle.sky_base.specs.View.{view};
ghost use Rattle.sky_base.specs.TreeView.{at};
ghost use Rattle.sky_base.specs.Op as op;
ghost use Rattle.sky_base.specs.OpView.{Exactly};
ghost use Rattle.sky_base.specs.Res.{visits};
ghost use Rattle.sky_base.specs.Res as logic;
ghost use Rattle.sky_base.specs.Eval.{World, oper, eval_links};
ghost use Rattle.sky_base_law.specs.Opened.{HasLinks};
ghost use Rattle.sky_base_law.specs.Nodes.{node_at};
ghost use Rattle.sky_base_scope.specs.Plain.{Vars};
ghost use Rattle.sky_machine_code.specs.Shapes.{op_view, operands_view};
ghost use Rattle.sky_machine_entries.specs.Config.{room, body_in, goes_on, rest_in, config, opened};
ghost use Rattle.sky_machine_entries.specs.Entries.{entry_of, forms};
ghost use Rattle.sky_machine_entries.specs.Falls.{GoesIn, GoesOut, load};
ghost use Rattle.sky_machine_entries.specs.Ready.{Ready, AllReady, Goes};

use sky_base::fault::FaultKind;
use sky_base::op::OpRefusal;
use sky_base::text::Memory;
use sky_base::value::Value;
use sky_base_scope::ops::{apply, compared};
use sky_base_scope::state::State;
use sky_machine_code::code::Code;
use sky_machine_code::shape::{Op, Operands, next_operand};
use sky_machine_entries::control::{Control, End, fail};
use sky_machine_entries::entry::{ChainMore, Entry, InForm};
use sky_machine_entries::list::push;
use sky_machine_entries::visit::visit;
use std::alloc::Global;

/// Where a chain stands between two operands: its node, the step and the number of the next operand, the value so far,
/// and the operators that are left.
#[derive(Drop)]
pub struct Chain<'a> {
    pub node: u32,
    pub step: usize,
    pub next: u32,
    pub value: Value,
    pub rest: Operands<'a>,
}

/// The operators of a chain that are left.
pub fn next_link<'a>(
    code: &Code,
    entries: &mut Vec<Entry<'a>>,
    chain: Chain<'a>,
) -> Result<Control<'a>, Memory>
    requires ready { AllReady code.now entries.old.items }
    requires step { chain.step ≤ chain.next }
    requires links { HasLinks (λ i. node_at code.now i) (operands_view chain.rest) chain.next }
    requires kept { Kept (view chain.value) }
    ensures same { IfOk result (λ c. (w : World (List ℕ)) (st : Vars) → config w entries.new.items c st
        ≡ rest_in w entries.old.items (eval_links w (body_in w (forms entries.old.items)) (operands_view chain.entry.rest) chain.entry.node
        chain.entry.step chain.entry.next (view chain.entry.value) st)) }
    ensures ready { IfOk result (λ c. AllReady code.now entries.new.items) }
    ensures goes { IfOk result (λ c. Goes code.now c) }
    ensures opened { IfOk result (λ c. opened (forms entries.new.items) ≡ opened (forms entries.old.items)) }
    ensures light { IfOk result (λ c. load entries.new.items c ≤ 2 * length entries.old.items + 4) }
{
    let Chain {
        node,
        step,
        next,
        value,
        rest,
    } = chain;
    match next_operand(rest) {
        None => Ok(Control::End(End::Got(value))),
        Some(operand) => {
            let after = code.after_exp(next, operand.operand);
            push(
                entries,
                Entry::Form(InForm::ChainMore(ChainMore {
                    node,
                    step,
                    next: after,
                    op: operand.op,
                    line: operand.line,
                    col: operand.col,
                    value,
                    rest: operand.rest,
                })),
            )?;
            Ok(Control::Begin(next, operand.operand))
        }
    }
}

/// What an operator of a chain makes of two values.
pub fn operate(
    alloc: Global,
    op: Op,
    a: &Value,
    b: &Value,
) -> Result<Result<Value, FaultKind>, Memory>
    requires a { Kept (view a.now) }
    requires b { Kept (view b.now) }
    ensures answer { IfOk result (λ r. Exactly r (oper (op_view op) (view a.now) (view b.now))) }
    ensures kept { IfOk result (λ r. IfOk r (λ v. Kept (view v))) }
{
    match op {
        Op::Arith(op) => match apply(alloc, op, a, b) {
            Ok(v) => Ok(Ok(v)),
            Err(OpRefusal::Refused(kind)) => Ok(Err(kind)),
            Err(OpRefusal::Memory) => Err(Memory),
        },
        Op::Compare(how) => Ok(compared(how, a, b)),
    }
}

/// A chain goes on with the value of an operand after an operator.
pub fn got_link<'a>(
    alloc: Global,
    code: &Code,
    state: &mut State,
    entries: &mut Vec<Entry<'a>>,
    chain: ChainMore<'a>,
    v: Value,
) -> Result<Control<'a>, Memory>
    requires ready { AllReady code.now entries.old.items }
    requires entry { Ready code.now (entry_of (Entry.Form (InForm.ChainMore chain))) }
    requires kept { Kept (view v) }
    requires within { state.old.count ≤ visits }
    ensures same { IfOk result (λ c. (w : World (List ℕ)) → config w entries.new.items c state.new
        ≡ rest_in w entries.old.items (goes_on w (forms entries.old.items) (entry_of (Entry.Form (InForm.ChainMore chain.entry)))
        (logic.End.got (view v)) state.old)) }
    ensures ready { IfOk result (λ c. AllReady code.now entries.new.items) }
    ensures goes { IfOk result (λ c. Goes code.now c) }
    ensures opened { IfOk result (λ c. opened (forms entries.new.items) ≡ opened (forms entries.old.items)) }
    ensures falls { IfOk result (λ c. GoesOut (End.Got v) state.old.count entries.old.items state.new.count entries.new.items c) }
{
    let ChainMore {
        node,
        step,
        next,
        op,
        line,
        col,
        value,
        rest,
    } = chain;
    if !visit(state, line, col) {
        return Ok(fail(FaultKind::TooLong, line, col));
    }
    match operate(alloc, op, &value, &v)? {
        Err(kind) => Ok(fail(kind, line, col)),
        Ok(value) => {
            let control = next_link(
                code,
                entries,
                Chain {
                    node,
                    step: step + 1,
                    next,
                    value,
                    rest,
                },
            )?;
            Ok(control)
        }
    }
}
