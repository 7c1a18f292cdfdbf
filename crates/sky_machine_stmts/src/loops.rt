// Loops, from one of their turns.

ghost use Rattle.std.specs.Prelude.{◌≡◌, ◌≤◌, ◌+◌, ◌*◌, ℕ, List, IfOk, length};
ghost use Rattle.sky_base.specs.Kept.{Kept};
ghost use Rattle.sky_base.specs.View.{view};
ghost use Rattle.sky_base.specs.TreeView.{at, exp_view};
ghost use Rattle.sky_base.specs.Res as logic;
ghost use Rattle.sky_base.specs.Res.{visits};
ghost use Rattle.sky_base.specs.Eval as run;
ghost use Rattle.sky_base.specs.Eval.{World, eval_block, go_while, go_repeat};
ghost use Rattle.sky_base_scope.specs.Plain.{Vars};
ghost use Rattle.sky_machine_entries.specs.Config.{body_in, goes_on, rest_in, config, opened};
ghost use Rattle.sky_machine_entries.specs.Entries.{entry_of, forms};
ghost use Rattle.sky_machine_entries.specs.Falls.{GoesOut, load};
ghost use Rattle.sky_machine_entries.specs.Ready.{Ready, AllReady, Goes};

use crate::block::open_block;
use sky_base::fault::FaultKind;
use sky_base::text::Memory;
use sky_base::value::Value;
use sky_base_scope::state::State;
use sky_machine_code::code::Code;
use sky_machine_entries::control::{Control, End, fail};
use sky_machine_entries::entry::{Entry, ForBody, ForList, InBlock, Repeat, While};
use sky_machine_entries::list::push;
use sky_machine_entries::visit::{decided, visit};

/// A `while` from its test.
pub fn turn<'a>(
    code: &Code,
    entries: &mut Vec<Entry<'a>>,
    turn: While<'a>,
) -> Result<Control<'a>, Memory>
    requires ready { AllReady code.now entries.old.items }
    requires entry { Ready code.now (entry_of (Entry.Block (InBlock.WhileTest turn))) }
    ensures same { IfOk result (λ c. (w : World (List ℕ)) (st : Vars) → st.count ≤ visits → config w entries.new.items c st
        ≡ rest_in w entries.old.items (go_while w (body_in w (forms entries.old.items)) turn.entry.node turn.entry.block
        (at turn.entry.line turn.entry.col) (exp_view turn.entry.test.now) turn.entry.body.now st)) }
    ensures ready { IfOk result (λ c. AllReady code.now entries.new.items) }
    ensures goes { IfOk result (λ c. Goes code.now c) }
    ensures opened { IfOk result (λ c. opened (forms entries.new.items) ≡ opened (forms entries.old.items)) }
    ensures light { IfOk result (λ c. load entries.new.items c ≤ 2 * length entries.old.items + 2) }
{
    let part = code.inside(turn.node);
    let test = turn.test;
    push(entries, Entry::Block(InBlock::WhileTest(turn)))?;
    Ok(Control::Begin(part, test))
}

/// A `while` goes on with the value of its test.
pub fn got_while<'a>(
    code: &Code,
    entries: &mut Vec<Entry<'a>>,
    turn: While<'a>,
    v: Value,
) -> Result<Control<'a>, Memory>
    requires ready { AllReady code.now entries.old.items }
    requires entry { Ready code.now (entry_of (Entry.Block (InBlock.WhileTest turn))) }
    ensures same { IfOk result (λ c. (w : World (List ℕ)) (st : Vars) → config w entries.new.items c st
        ≡ rest_in w entries.old.items (goes_on w (forms entries.old.items) (entry_of (Entry.Block (InBlock.WhileTest turn.entry)))
        (logic.End.got (view v)) st)) }
    ensures ready { IfOk result (λ c. AllReady code.now entries.new.items) }
    ensures goes { IfOk result (λ c. Goes code.now c) }
    ensures opened { IfOk result (λ c. opened (forms entries.new.items) ≡ opened (forms entries.old.items)) }
    ensures light { IfOk result (λ c. load entries.new.items c ≤ 2 * length entries.old.items + 5) }
{
    match decided(&v, turn.line, turn.col) {
        Err(fault) => Ok(Control::End(End::Failed(fault))),
        Ok(false) => Ok(Control::End(End::Goes)),
        Ok(true) => {
            let (block, body) = (turn.block, turn.body);
            push(entries, Entry::Block(InBlock::WhileBody(turn)))?;
            let control = open_block(code, entries, block, body)?;
            Ok(control)
        }
    }
}

/// A `do` from its body.
pub fn again<'a>(
    code: &Code,
    entries: &mut Vec<Entry<'a>>,
    turn: Repeat<'a>,
) -> Result<Control<'a>, Memory>
    requires ready { AllReady code.now entries.old.items }
    requires entry { Ready code.now (entry_of (Entry.Block (InBlock.RepeatBody turn))) }
    ensures same { IfOk result (λ c. (w : World (List ℕ)) (st : Vars) → st.count ≤ visits → config w entries.new.items c st
        ≡ rest_in w entries.old.items (go_repeat w (body_in w (forms entries.old.items)) turn.entry.node turn.entry.test_at
        (at turn.entry.line turn.entry.col) turn.entry.body.now (exp_view turn.entry.test.now) st)) }
    ensures ready { IfOk result (λ c. AllReady code.now entries.new.items) }
    ensures goes { IfOk result (λ c. Goes code.now c) }
    ensures opened { IfOk result (λ c. opened (forms entries.new.items) ≡ opened (forms entries.old.items)) }
    ensures light { IfOk result (λ c. load entries.new.items c ≤ 2 * length entries.old.items + 5) }
{
    let block = code.inside(turn.node);
    let body = turn.body;
    push(entries, Entry::Block(InBlock::RepeatBody(turn)))?;
    let control = open_block(code, entries, block, body)?;
    Ok(control)
}

/// A `do` goes on after its body, with its test.
pub fn test_again<'a>(
    code: &Code,
    entries: &mut Vec<Entry<'a>>,
    turn: Repeat<'a>,
) -> Result<Control<'a>, Memory>
    requires ready { AllReady code.now entries.old.items }
    requires entry { Ready code.now (entry_of (Entry.Block (InBlock.RepeatBody turn))) }
    ensures same { IfOk result (λ c. (w : World (List ℕ)) (st : Vars) → config w entries.new.items c st
        ≡ rest_in w entries.old.items (goes_on w (forms entries.old.items) (entry_of (Entry.Block (InBlock.RepeatBody turn.entry)))
        logic.End.goes st)) }
    ensures ready { IfOk result (λ c. AllReady code.now entries.new.items) }
    ensures goes { IfOk result (λ c. Goes code.now c) }
    ensures opened { IfOk result (λ c. opened (forms entries.new.items) ≡ opened (forms entries.old.items)) }
    ensures light { IfOk result (λ c. load entries.new.items c ≤ 2 * length entries.old.items + 2) }
{
    let (node, test) = (turn.test_at, turn.test);
    push(entries, Entry::Block(InBlock::RepeatTest(turn)))?;
    Ok(Control::Begin(node, test))
}

/// A `do` goes on with the value of its test.
pub fn got_repeat<'a>(
    code: &Code,
    entries: &mut Vec<Entry<'a>>,
    turn: Repeat<'a>,
    v: Value,
) -> Result<Control<'a>, Memory>
    requires ready { AllReady code.now entries.old.items }
    requires entry { Ready code.now (entry_of (Entry.Block (InBlock.RepeatTest turn))) }
    ensures same { IfOk result (λ c. (w : World (List ℕ)) (st : Vars) → st.count ≤ visits → config w entries.new.items c st
        ≡ rest_in w entries.old.items (goes_on w (forms entries.old.items) (entry_of (Entry.Block (InBlock.RepeatTest turn.entry)))
        (logic.End.got (view v)) st)) }
    ensures ready { IfOk result (λ c. AllReady code.now entries.new.items) }
    ensures goes { IfOk result (λ c. Goes code.now c) }
    ensures opened { IfOk result (λ c. opened (forms entries.new.items) ≡ opened (forms entries.old.items)) }
    ensures light { IfOk result (λ c. load entries.new.items c ≤ 2 * length entries.old.items + 5) }
{
    match decided(&v, turn.line, turn.col) {
        Err(fault) => Ok(Control::End(End::Failed(fault))),
        Ok(false) => Ok(Control::End(End::Goes)),
        Ok(true) => {
            let control = again(code, entries, turn)?;
            Ok(control)
        }
    }
}

/// A `for` goes on with its list.
pub fn got_list<'a>(
    code: &Code,
    state: &mut State,
    entries: &mut Vec<Entry<'a>>,
    turn: ForList<'a>,
    v: Value,
) -> Result<Control<'a>, Memory>
    requires ready { AllReady code.now entries.old.items }
    requires entry { Ready code.now (entry_of (Entry.Block (InBlock.ForList turn))) }
    requires kept { Kept (view v) }
    requires within { state.old.count ≤ visits }
    ensures same { IfOk result (λ c. (w : World (List ℕ)) → config w entries.new.items c state.new
        ≡ rest_in w entries.old.items (goes_on w (forms entries.old.items) (entry_of (Entry.Block (InBlock.ForList turn.entry)))
        (logic.End.got (view v)) state.old)) }
    ensures ready { IfOk result (λ c. AllReady code.now entries.new.items) }
    ensures goes { IfOk result (λ c. Goes code.now c) }
    ensures opened { IfOk result (λ c. opened (forms entries.new.items) ≡ opened (forms entries.old.items)) }
    ensures falls { IfOk result (λ c. GoesOut End.Goes state.old.count entries.old.items state.new.count entries.new.items c) }
{
    let Value::List(list) = &v else {
        return Ok(fail(FaultKind::BadKind, turn.line, turn.col));
    };
    let control = each(
        code,
        state,
        entries,
        ForBody {
            node: turn.node,
            block: turn.block,
            taken: 0,
            line: turn.line,
            col: turn.col,
            name: turn.name,
            list: list.copy()?,
            body: turn.body,
        },
    )?;
    Ok(control)
}

/// A `for` from its next element.
pub fn each<'a>(
    code: &Code,
    state: &mut State,
    entries: &mut Vec<Entry<'a>>,
    turn: ForBody<'a>,
) -> Result<Control<'a>, Memory>
    requires ready { AllReady code.now entries.old.items }
    requires entry { Ready code.now (entry_of (Entry.Block (InBlock.ForBody turn))) }
    requires within { state.old.count ≤ visits }
    ensures same { IfOk result (λ c. (w : World (List ℕ)) → config w entries.new.items c state.new
        ≡ rest_in w entries.old.items (goes_on w (forms entries.old.items) (entry_of (Entry.Block (InBlock.ForBody turn.entry))) logic.End.goes
        state.old)) }
    ensures ready { IfOk result (λ c. AllReady code.now entries.new.items) }
    ensures goes { IfOk result (λ c. Goes code.now c) }
    ensures opened { IfOk result (λ c. opened (forms entries.new.items) ≡ opened (forms entries.old.items)) }
    ensures falls { IfOk result (λ c. GoesOut End.Goes state.old.count entries.old.items state.new.count entries.new.items c) }
{
    let mut turn = turn;
    let v = match turn.list.get(turn.taken) {
        None => return Ok(Control::End(End::Goes)),
        Some(v) => v.copy()?,
    };
    if !visit(state, turn.line, turn.col) {
        return Ok(fail(FaultKind::TooLong, turn.line, turn.col));
    }
    state.set(turn.name, v)?;
    turn.taken += 1;
    let (block, body) = (turn.block, turn.body);
    push(entries, Entry::Block(InBlock::ForBody(turn)))?;
    let control = open_block(code, entries, block, body)?;
    Ok(control)
}
