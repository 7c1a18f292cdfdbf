// Chains of `&&` and of `||`.

ghost use Rattle.std.specs.Prelude.{◌≡◌, ◌≤◌, ◌<◌, ◌+◌, ◌*◌, ℕ, List, IfOk, length};
ghost use Rattle.sky_base.specs.Kept.{Kept};
ghost use Rattle.sky_base.specs.View.{view};
ghost use Rattle.sky_base.specs.TreeView.{at};
ghost use Rattle.sky_base.specs.Res as logic;
ghost use Rattle.sky_base.specs.Res.{visits, gives, Fin};
ghost use Rattle.sky_base.specs.Eval.{World, truth_of};
ghost use Rattle.sky_base_scope.specs.Plain.{Vars};
ghost use Rattle.sky_machine_entries.specs.Config.{room, body_in, goes_on, rest_in, config, opened};
ghost use Rattle.sky_machine_entries.specs.Entries.{end_of, entry_of, forms};
ghost use Rattle.sky_machine_entries.specs.Falls.{GoesOut};
ghost use Rattle.sky_machine_entries.specs.Ready.{EndReady, Ready, AllReady, Goes};

use sky_base::fault::FaultKind;
use sky_base::text::Memory;
use sky_base::value::Value;
use sky_base_scope::state::State;
use sky_machine_code::code::Code;
use sky_machine_entries::control::{Control, End, fail};
use sky_machine_entries::entry::{Entry, InForm, Logic};
use sky_machine_entries::list::push;
use sky_machine_entries::visit::{decided, visit};

/// A chain of `&&` or `||` goes on with the value of an operand.
pub fn got_and<'a>(
    code: &Code,
    state: &mut State,
    entries: &mut Vec<Entry<'a>>,
    chain: Logic<'a>,
    v: Value,
) -> Result<Control<'a>, Memory>
    requires ready { AllReady code.now entries.old.items }
    requires entry { Ready code.now (entry_of (Entry.Form (InForm.Logic chain))) }
    requires kept { Kept (view v) }
    requires within { state.old.count ≤ visits }
    ensures same { IfOk result (λ c. (w : World (List ℕ)) → config w entries.new.items c state.new
        ≡ rest_in w entries.old.items (goes_on w (forms entries.old.items) (entry_of (Entry.Form (InForm.Logic chain.entry)))
        (logic.End.got (view v)) state.old)) }
    ensures ready { IfOk result (λ c. AllReady code.now entries.new.items) }
    ensures goes { IfOk result (λ c. Goes code.now c) }
    ensures opened { IfOk result (λ c. opened (forms entries.new.items) ≡ opened (forms entries.old.items)) }
    ensures falls { IfOk result (λ c. GoesOut (End.Got v) state.old.count entries.old.items state.new.count entries.new.items c) }
{
    let Logic {
        node,
        step,
        next,
        stop,
        line,
        col,
        rest,
    } = chain;
    match rest.split_first() {
        None => match decided(&v, line, col) {
            Ok(b) => Ok(Control::End(End::Got(Value::Bool(b)))),
            Err(fault) => Ok(Control::End(End::Failed(fault))),
        },
        Some((join, rest)) => {
            if !visit(state, join.line, join.col) {
                return Ok(fail(FaultKind::TooLong, join.line, join.col));
            }
            match decided(&v, join.line, join.col) {
                Err(fault) => Ok(Control::End(End::Failed(fault))),
                Ok(b) => {
                    if b == stop {
                        return Ok(Control::End(End::Got(Value::Bool(stop))));
                    }
                    let after = code.after_exp(next, &join.operand);
                    push(
                        entries,
                        Entry::Form(InForm::Logic(Logic {
                            node,
                            step: step + 1,
                            next: after,
                            stop,
                            line: join.line,
                            col: join.col,
                            rest,
                        })),
                    )?;
                    Ok(Control::Begin(next, &join.operand))
                }
            }
        }
    }
}
