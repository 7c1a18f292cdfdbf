// A visit, and what an operator answers, as ends of pieces of script.

ghost use Rattle.std.specs.Prelude.{◌≡◌, ◌≤◌, ◌+◌, IsTrue, IsFalse, IfOk, IfErr, ℕ, List};
ghost use Rattle.sky_base.specs.Kept.{Kept};
ghost use Rattle.sky_base.specs.View.{view};
ghost use Rattle.sky_base.specs.Val.{truth};
ghost use Rattle.sky_base.specs.Res as logic;
ghost use Rattle.sky_base.specs.Res.{visits, fault_at, Fin, gives, Res};
ghost use Rattle.sky_base.specs.Eval as run;
ghost use Rattle.sky_base.specs.TreeView.{at};
ghost use Rattle.sky_base.specs.OpView.{Answers, Exactly};
ghost use Rattle.sky_machine_code.specs.Plain.{Vars, Val, Answer};
ghost use Rattle.sky_machine_entries.specs.Config.{Run};
ghost use Rattle.sky_machine_entries.specs.Entries.{end_of};
ghost use Rattle.sky_machine_entries.specs.Ready.{EndReady};

use crate::control::End;
use sky_base::fault::{Fault, FaultKind};
use sky_base::op::OpRefusal;
use sky_base::text::Memory;
use sky_base::value::Value;
use sky_machine_code::ops::truth;
use sky_machine_code::state::State;

/// One visit more, or false where the task has visited 1,000,000 nodes.
pub fn visit(state: &mut State, line: u32, col: u32) -> bool
    requires { state.old.count ≤ visits }
    ensures within { state.new.count ≤ visits }
    ensures rises { IsTrue result → state.new.count ≡ state.old.count + 1 }
    ensures stays { IsFalse result → state.new.count ≡ state.old.count }
    ensures more { IsTrue result → (k : Vars → Run) → logic.visit (at line col) state.old k ≡ k state.new }
    ensures failed { IsFalse result → (k : Vars → Run) → logic.visit (at line col) state.old k
        ≡ Fin (logic.End.failed (fault_at FaultKind.TooLong (at line col))) state.new }
{
    match state.visit(line, col) {
        Ok(()) => true,
        Err(_) => false,
    }
}

/// The end with a fault of this kind at a place.
pub fn failed(kind: FaultKind, line: u32, col: u32) -> End
    ensures { result ≡ End.Failed (fault_at kind (at line col)) }
{
    End::Failed(Fault { kind, line, col })
}

/// The end of an expression whose value is an operator's: the value, or its fault at this place.
pub fn given(answer: Result<Value, OpRefusal>, line: u32, col: u32) -> Result<End, Memory>
    ensures same { (a : Answer) → Answers answer a → IfOk result (λ e. (st : Vars) → logic.answer a (at line col) st gives ≡ Fin (end_of e) st) }
    ensures ready { IfOk answer (λ v. Kept (view v)) → IfOk result EndReady }
{
    match answer {
        Ok(v) => Ok(End::Got(v)),
        Err(OpRefusal::Refused(kind)) => Ok(failed(kind, line, col)),
        Err(OpRefusal::Memory) => Err(Memory),
    }
}

/// The same, of an operator that takes no memory.
pub fn given_exact(answer: Result<Value, FaultKind>, line: u32, col: u32) -> End
    ensures same { (a : Answer) → Exactly answer a → (st : Vars) → logic.answer a (at line col) st gives ≡ Fin (end_of result) st }
    ensures ready { IfOk answer (λ v. Kept (view v)) → EndReady result }
{
    match answer {
        Ok(v) => End::Got(v),
        Err(kind) => failed(kind, line, col),
    }
}

/// By a truth value, or the fault BadKind at this place.
pub fn decided(v: &Value, line: u32, col: u32) -> Result<bool, Fault>
    ensures ok { IfOk result (λ b. view v.now ≡ truth b) }
    ensures err { IfErr result (λ f. (st : Vars) (on off : Vars → Run) → run.decide (view v.now) (at line col) st on off
        ≡ Fin (logic.End.failed f) st) }
{
    match truth(v) {
        Ok(b) => Ok(b),
        Err(kind) => Err(Fault { kind, line, col }),
    }
}
