// Signs before an operand, the nearest first. All of them are done in one step, up to a `*`, which waits.

ghost use Rattle.std.specs.Prelude.{◌≡◌, ◌≤◌, ◌<◌, ◌+◌, ◌*◌, ◌^◌, ℕ, List, IfOk, length, reverse};
ghost use Rattle.sky_base.specs.Kept.{Kept};
ghost use Rattle.sky_base.specs.View.{view};
ghost use Rattle.sky_base.specs.TreeView.{at, signs_view};
ghost use Rattle.sky_base.specs.Res.{visits};
ghost use Rattle.sky_base.specs.Eval as run;
ghost use Rattle.sky_base.specs.Eval.{World};
ghost use Rattle.sky_base_scope.specs.Plain.{Vars};
ghost use Rattle.sky_machine_entries.specs.Config.{rest_in, config, opened};
ghost use Rattle.sky_machine_exprs.specs.Applied.{AppliedSo, MadeSo};
ghost use Rattle.sky_machine_entries.specs.Entries.{forms};
ghost use Rattle.sky_machine_entries.specs.Falls.{GoesOut, load};
ghost use Rattle.sky_machine_entries.specs.Ready.{AllReady, Goes};

use sky_base::fault::FaultKind;
use sky_base::text::Memory;
use sky_base::tree::{SignAt, SignOp};
use sky_base::value::Value;
use sky_base_scope::ops::{negated, opposite};
use sky_base_scope::state::State;
use sky_machine_code::code::Code;
use sky_machine_entries::control::{Control, End, Wait, fail};
use sky_machine_entries::entry::{Entry, InForm, Star};
use sky_machine_entries::list::push;
use sky_machine_entries::visit::visit;

/// What a sign makes of a value.
#[derive(Drop)]
enum Applied {
    Made(Value),
    Failed(FaultKind),
    /// The sign is a `*`.
    Star,
}

/// What a sign makes of a value at once.
fn apply(sign: SignOp, v: &Value) -> Applied
    ensures { AppliedSo result sign (view v.now) }
{
    match sign {
        SignOp::Star => Applied::Star,
        SignOp::Not => made(opposite(v)),
        SignOp::Minus => made(negated(v)),
    }
}

fn made(answer: Result<Value, FaultKind>) -> Applied
    ensures { IfOk answer (λ v. Kept (view v)) → MadeSo result answer }
{
    match answer {
        Ok(v) => Applied::Made(v),
        Err(kind) => Applied::Failed(kind),
    }
}

/// A `*`, visited before, waits for the object of its reference; with the signs before it in the text.
fn star<'a>(
    code: &Code,
    entries: &mut Vec<Entry<'a>>,
    node: u32,
    step: u128,
    signs: &'a [SignAt],
    v: &Value,
    line: u32,
    col: u32,
) -> Result<Control<'a>, Memory>
    requires ready { AllReady code.now entries.old.items }
    requires fits { step + 1 + length signs.now < 2 ^ 128 }
    ensures same { IfOk result (λ c. (w : World (List ℕ)) (st : Vars) → config w entries.new.items c st
        ≡ rest_in w entries.old.items (run.deref w (view v.now) node step (reverse (signs_view signs.entry.now)) (at line col) st
        (λ u t. run.signs w (reverse (signs_view signs.entry.now)) node (step + 1) u t))) }
    ensures ready { IfOk result (λ c. AllReady code.now entries.new.items) }
    ensures goes { IfOk result (λ c. Goes code.now c) }
    ensures opened { IfOk result (λ c. opened (forms entries.new.items) ≡ opened (forms entries.old.items)) }
    ensures light { IfOk result (λ c. load entries.new.items c ≤ 2 * length entries.old.items + 4) }
{
    let Value::Ref(name) = v else {
        return Ok(fail(FaultKind::BadKind, line, col));
    };
    let name = *name;
    push(
        entries,
        Entry::Form(InForm::Star(Star {
            node,
            step,
            name,
            signs,
        })),
    )?;
    Ok(Control::Wait(Wait::One { line, col, name }))
}

/// The signs that are left, the last of them first, from a step.
pub fn next_signs<'a>(
    code: &Code,
    state: &mut State,
    entries: &mut Vec<Entry<'a>>,
    node: u32,
    step: u128,
    signs: &'a [SignAt],
    v: Value,
) -> Result<Control<'a>, Memory>
    requires ready { AllReady code.now entries.old.items }
    requires fits { step + length signs.now < 2 ^ 128 }
    requires kept { Kept (view v) }
    requires within { state.old.count ≤ visits }
    ensures same { IfOk result (λ c. (w : World (List ℕ)) → config w entries.new.items c state.new
        ≡ rest_in w entries.old.items (run.signs w (reverse (signs_view signs.entry.now)) node step (view v) state.old)) }
    ensures ready { IfOk result (λ c. AllReady code.now entries.new.items) }
    ensures goes { IfOk result (λ c. Goes code.now c) }
    ensures opened { IfOk result (λ c. opened (forms entries.new.items) ≡ opened (forms entries.old.items)) }
    ensures falls { IfOk result (λ c. GoesOut (End.Got v) state.old.count entries.old.items state.new.count entries.new.items c) }
{
    let mut v = v;
    let mut step = step;
    let mut left = signs.len();
    while left > 0 {
        left -= 1;
        let SignAt { sign, line, col } = signs[left];
        if !visit(state, line, col) {
            return Ok(fail(FaultKind::TooLong, line, col));
        }
        match apply(sign, &v) {
            Applied::Star => {
                let control = star(code, entries, node, step, &signs[..left], &v, line, col)?;
                return Ok(control);
            }
            Applied::Failed(kind) => return Ok(fail(kind, line, col)),
            Applied::Made(made) => v = made,
        }
        step += 1;
    }
    Ok(Control::End(End::Got(v)))
}
