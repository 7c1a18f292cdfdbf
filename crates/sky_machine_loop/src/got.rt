// A form under way goes on where its part has ended.

ghost use Rattle.std.specs.Prelude.{◌≡◌, ◌≤◌, ◌<◌, ◌+◌, ◌*◌, ℕ, List, [], ◌∷◌, IfOk, length};
ghost use Rattle.sky_base.specs.Kept.{Kept};
ghost use Rattle.sky_base.specs.View.{view};
ghost use Rattle.sky_base.specs.TreeView.{exp_view};
ghost use Rattle.sky_base.specs.Res as logic;
ghost use Rattle.sky_base.specs.Res.{visits, others, Fin};
ghost use Rattle.sky_base.specs.Eval.{World, eval};
ghost use Rattle.sky_base_law.specs.Opened.{HasExp};
ghost use Rattle.sky_base_law.specs.Nodes.{node_at, pre_script};
ghost use Rattle.sky_base_scope.specs.Plain.{Vars};
ghost use Rattle.sky_machine_entries.specs.Config.{body_in, goes_on, rest_in, config, opened};
ghost use Rattle.sky_machine_entries.specs.Entries.{Form, end_of, entry_of, forms};
ghost use Rattle.sky_machine_entries.specs.Falls.{GoesIn, GoesOut, to_do, work};
ghost use Rattle.sky_machine_entries.specs.Ready.{EndReady, Ready, AllReady, Goes};
ghost use Rattle.sky_machine_parts.specs.Made.{whole, RunsOn};

use ciel_name::name::Namer;
use sky_base::fault::Fault;
use sky_base::object::Named;
use sky_base::text::Memory;
use sky_base::tree::SignAt;
use sky_base::value::Value;
use sky_base_scope::state::State;
use sky_machine_calls::arms::got_arm;
use sky_machine_calls::at_once::go_stmts;
use sky_machine_calls::loops::{each, got_list, got_repeat, got_while, test_again};
use sky_machine_calls::postfix::{Postfix, close, got_arg, got_index, next_step};
use sky_machine_calls::rounds::turns;
use sky_machine_calls::stmt::{add, put_index, put_value, set};
use sky_machine_entries::control::{Control, End};
use sky_machine_entries::entry::{Entry, InBlock, InForm, InPostfix, InStmt};
use sky_machine_exprs::chain::{Chain, got_link, next_link};
use sky_machine_exprs::logic::got_and;
use sky_machine_exprs::signs::next_signs;
use sky_machine_parts::made::Ground;
use sky_machine_parts::parts::got_part;

// As many signs as there are fit in memory.
fn how_many(signs: &[SignAt]) -> usize
    ensures { result ≡ length signs.now }
{
    signs.len()
}

/// A form of an expression goes on with the value of its part.
fn got_form<'a, 'b, N: Namer>(
    ground: &Ground<'b, 'a, N>,
    state: &mut State,
    made: &mut Vec<Named>,
    entries: &mut Vec<Entry<'a>>,
    form: InForm<'a>,
    v: Value,
) -> Result<Control<'a>, Memory>
    requires ready { AllReady ground.now.code.now entries.old.items }
    requires entry { Ready ground.now.code.now (entry_of (Entry.Form form)) }
    requires kept { Kept (view v) }
    requires within { state.old.count ≤ visits }
    ensures same { IfOk result (λ c. (w : World (List ℕ)) → RunsOn w ground.now.code.now (N.digest ground.now.namer.now)
        → whole (N.digest ground.now.namer.now) made.new.items (config w entries.new.items c state.new)
        ≡ whole (N.digest ground.now.namer.now) made.old.items
        (rest_in w entries.old.items (goes_on w (forms entries.old.items) (entry_of (Entry.Form form.entry)) (logic.End.got (view v))
        state.old))) }
    ensures ready { IfOk result (λ c. AllReady ground.now.code.now entries.new.items) }
    ensures goes { IfOk result (λ c. Goes ground.now.code.now c) }
    ensures opened { IfOk result (λ c. opened (forms entries.new.items) ≡ opened (forms entries.old.items)) }
    ensures falls { IfOk result (λ c. GoesOut (End.Got v) state.old.count entries.old.items state.new.count entries.new.items c) }
{
    let code = ground.code;
    match form {
        InForm::Parens(_) => Ok(Control::End(End::Got(v))),
        InForm::ExecWait(_) => Ok(Control::End(End::Got(v))),
        InForm::Part(part) => {
            let control = got_part(ground, state, made, entries, part, v)?;
            Ok(control)
        }
        InForm::ChainFirst(chain) => {
            let control = next_link(
                code,
                entries,
                Chain {
                    node: chain.node,
                    step: 2,
                    next: chain.next,
                    value: v,
                    rest: chain.rest,
                },
            )?;
            Ok(control)
        }
        InForm::ChainMore(chain) => {
            let control = got_link(ground.alloc, code, state, entries, chain, v)?;
            Ok(control)
        }
        InForm::Logic(chain) => {
            let control = got_and(code, state, entries, chain, v)?;
            Ok(control)
        }
        InForm::Prefix(prefix) => {
            let _signs = how_many(prefix.signs);
            let control = next_signs(code, state, entries, prefix.node, 2, prefix.signs, v)?;
            Ok(control)
        }
        InForm::Star(star) => {
            let control = next_signs(
                code,
                state,
                entries,
                star.node,
                star.step + 1,
                star.signs,
                v,
            )?;
            Ok(control)
        }
    }
}

/// Indices and calls go on with the value of a part.
fn got_postfix<'a, 'b, N: Namer>(
    ground: &Ground<'b, 'a, N>,
    state: &mut State,
    left: &mut u32,
    entries: &mut Vec<Entry<'a>>,
    postfix: InPostfix<'a>,
    v: Value,
) -> Result<Control<'a>, Memory>
    requires ready { AllReady ground.now.code.now entries.old.items }
    requires entry { Ready ground.now.code.now (entry_of (Entry.Postfix postfix)) }
    requires room { opened (forms entries.old.items) + (opened (entry_of (Entry.Postfix postfix) ∷ []) + left.old) ≡ others }
    requires kept { Kept (view v) }
    requires within { state.old.count ≤ visits }
    ensures same { IfOk result (λ c. (w : World (List ℕ)) → w.script ≡ ground.now.code.now → config w entries.new.items c state.new
        ≡ rest_in w entries.old.items (goes_on w (forms entries.old.items) (entry_of (Entry.Postfix postfix.entry)) (logic.End.got (view v))
        state.old)) }
    ensures ready { IfOk result (λ c. AllReady ground.now.code.now entries.new.items) }
    ensures goes { IfOk result (λ c. Goes ground.now.code.now c) }
    ensures room { IfOk result (λ c. opened (forms entries.new.items) + left.new ≡ others) }
    ensures falls { IfOk result (λ c. GoesOut (End.Got v) state.old.count entries.old.items state.new.count entries.new.items c) }
{
    let (alloc, code) = (ground.alloc, ground.code);
    match postfix {
        InPostfix::First(first) => {
            let control = next_step(
                alloc,
                code,
                state,
                left,
                entries,
                Postfix {
                    node: first.node,
                    step: 2,
                    next: first.next,
                    rest: first.rest,
                },
                v,
            )?;
            Ok(control)
        }
        InPostfix::Index(index) => {
            let control = got_index(alloc, code, state, left, entries, index, v)?;
            Ok(control)
        }
        InPostfix::Arg(arg) => {
            let control = got_arg(alloc, code, state, left, entries, arg, v)?;
            Ok(control)
        }
        InPostfix::Open(open) => {
            let control = close(alloc, code, state, left, entries, open, v)?;
            Ok(control)
        }
    }
}

/// A statement without a block goes on with the value of its part.
fn got_stmt<'a, 'b, N: Namer>(
    ground: &Ground<'b, 'a, N>,
    state: &mut State,
    entries: &mut Vec<Entry<'a>>,
    stmt: InStmt<'a>,
    v: Value,
) -> Result<Control<'a>, Memory>
    requires ready { AllReady ground.now.code.now entries.old.items }
    requires entry { Ready ground.now.code.now (entry_of (Entry.Stmt stmt)) }
    requires kept { Kept (view v) }
    requires within { state.old.count ≤ visits }
    ensures same { IfOk result (λ c. (w : World (List ℕ)) → w.script ≡ ground.now.code.now → config w entries.new.items c state.new
        ≡ rest_in w entries.old.items (goes_on w (forms entries.old.items) (entry_of (Entry.Stmt stmt.entry)) (logic.End.got (view v))
        state.old)) }
    ensures ready { IfOk result (λ c. AllReady ground.now.code.now entries.new.items) }
    ensures goes { IfOk result (λ c. Goes ground.now.code.now c) }
    ensures opened { IfOk result (λ c. opened (forms entries.new.items) ≡ opened (forms entries.old.items)) }
    ensures falls { IfOk result (λ c. GoesOut (End.Got v) state.old.count entries.old.items state.new.count entries.new.items c) }
{
    match stmt {
        InStmt::Set(to) => Ok(Control::End(set(state, to, v)?)),
        InStmt::Add(to) => Ok(Control::End(add(ground.alloc, state, to, v)?)),
        InStmt::PutIndex(put) => {
            let control = put_index(ground.code, entries, put, v)?;
            Ok(control)
        }
        InStmt::PutValue(put) => Ok(Control::End(put_value(state, put, v)?)),
        InStmt::Return(_) => Ok(Control::End(End::Returned(v))),
        InStmt::Just(_) => Ok(Control::End(End::Goes)),
    }
}

/// A statement with a block goes on with the value of its part.
fn got_block<'a, 'b, N: Namer>(
    ground: &Ground<'b, 'a, N>,
    state: &mut State,
    entries: &mut Vec<Entry<'a>>,
    block: InBlock<'a>,
    v: Value,
) -> Result<Control<'a>, Memory>
    requires ready { AllReady ground.now.code.now entries.old.items }
    requires entry { Ready ground.now.code.now (entry_of (Entry.Block block)) }
    requires kept { Kept (view v) }
    requires within { state.old.count ≤ visits }
    ensures same { IfOk result (λ c. (w : World (List ℕ)) → w.script ≡ ground.now.code.now → config w entries.new.items c state.new
        ≡ rest_in w entries.old.items (goes_on w (forms entries.old.items) (entry_of (Entry.Block block.entry)) (logic.End.got (view v))
        state.old)) }
    ensures ready { IfOk result (λ c. AllReady ground.now.code.now entries.new.items) }
    ensures goes { IfOk result (λ c. Goes ground.now.code.now c) }
    ensures opened { IfOk result (λ c. opened (forms entries.new.items) ≡ opened (forms entries.old.items)) }
    ensures falls { IfOk result (λ c. GoesOut (End.Got v) state.old.count entries.old.items state.new.count entries.new.items c) }
{
    let code = ground.code;
    match block {
        InBlock::Arm(arm) => {
            let control = got_arm(code, entries, arm, v)?;
            Ok(control)
        }
        InBlock::WhileTest(turn) => {
            let control = got_while(code, entries, turn, v)?;
            Ok(control)
        }
        InBlock::RepeatTest(turn) => {
            let control = got_repeat(code, entries, turn, v)?;
            Ok(control)
        }
        InBlock::ForList(turn) => {
            let control = got_list(code, state, entries, turn, v)?;
            Ok(control)
        }
        _other => Ok(Control::End(End::Got(v))),
    }
}

/// Indices and calls go on after a statement or a block: that of a call's body, whose value is null.
fn goes_postfix<'a, 'b, N: Namer>(
    ground: &Ground<'b, 'a, N>,
    state: &mut State,
    left: &mut u32,
    entries: &mut Vec<Entry<'a>>,
    postfix: InPostfix<'a>,
) -> Result<Control<'a>, Memory>
    requires ready { AllReady ground.now.code.now entries.old.items }
    requires entry { Ready ground.now.code.now (entry_of (Entry.Postfix postfix)) }
    requires room { opened (forms entries.old.items) + (opened (entry_of (Entry.Postfix postfix) ∷ []) + left.old) ≡ others }
    requires within { state.old.count ≤ visits }
    ensures same { IfOk result (λ c. (w : World (List ℕ)) → w.script ≡ ground.now.code.now → config w entries.new.items c state.new
        ≡ rest_in w entries.old.items (goes_on w (forms entries.old.items) (entry_of (Entry.Postfix postfix.entry)) logic.End.goes state.old)) }
    ensures ready { IfOk result (λ c. AllReady ground.now.code.now entries.new.items) }
    ensures goes { IfOk result (λ c. Goes ground.now.code.now c) }
    ensures room { IfOk result (λ c. opened (forms entries.new.items) + left.new ≡ others) }
    ensures falls { IfOk result (λ c. GoesOut End.Goes state.old.count entries.old.items state.new.count entries.new.items c) }
{
    match postfix {
        InPostfix::Open(call) => {
            let (alloc, code) = (ground.alloc, ground.code);
            let control = close(alloc, code, state, left, entries, call, Value::Null)?;
            Ok(control)
        }
        _other => Ok(Control::End(End::Goes)),
    }
}

/// Indices and calls where a part returned: a call's body, whose value this is.
fn returned_postfix<'a, 'b, N: Namer>(
    ground: &Ground<'b, 'a, N>,
    state: &mut State,
    left: &mut u32,
    entries: &mut Vec<Entry<'a>>,
    postfix: InPostfix<'a>,
    v: Value,
) -> Result<Control<'a>, Memory>
    requires ready { AllReady ground.now.code.now entries.old.items }
    requires entry { Ready ground.now.code.now (entry_of (Entry.Postfix postfix)) }
    requires room { opened (forms entries.old.items) + (opened (entry_of (Entry.Postfix postfix) ∷ []) + left.old) ≡ others }
    requires kept { Kept (view v) }
    requires within { state.old.count ≤ visits }
    ensures same { IfOk result (λ c. (w : World (List ℕ)) → w.script ≡ ground.now.code.now → config w entries.new.items c state.new
        ≡ rest_in w entries.old.items (goes_on w (forms entries.old.items) (entry_of (Entry.Postfix postfix.entry)) (logic.End.returned (view v))
        state.old)) }
    ensures ready { IfOk result (λ c. AllReady ground.now.code.now entries.new.items) }
    ensures goes { IfOk result (λ c. Goes ground.now.code.now c) }
    ensures room { IfOk result (λ c. opened (forms entries.new.items) + left.new ≡ others) }
    ensures falls { IfOk result (λ c. GoesOut (End.Returned v) state.old.count entries.old.items state.new.count entries.new.items c) }
{
    match postfix {
        InPostfix::Open(call) => {
            let (alloc, code) = (ground.alloc, ground.code);
            let control = close(alloc, code, state, left, entries, call, v)?;
            Ok(control)
        }
        _other => Ok(Control::End(End::Returned(v))),
    }
}

/// Indices and calls where a part failed: they fail too, and a call has its caller's variables again.
fn leave<'a>(state: &mut State, left: &mut u32, postfix: InPostfix<'a>)
    requires room { opened (entry_of (Entry.Postfix postfix) ∷ []) + left.old ≤ others }
    ensures same { (w : World (List ℕ)) (fr : List Form) (f : Fault) → Fin (logic.End.failed f) state.new
        ≡ goes_on w fr (entry_of (Entry.Postfix postfix.entry)) (logic.End.failed f) state.old }
    ensures room { left.new ≡ opened (entry_of (Entry.Postfix postfix.entry) ∷ []) + left.old }
    ensures count { state.new.count ≡ state.old.count }
{
    match postfix {
        InPostfix::Open(call) => {
            let inner = std::mem::replace(state, call.caller);
            state.resume(&inner);
            *left += 1;
        }
        _other => {}
    }
}

/// Indices and calls go on where a part, or a call's body, has ended.
fn finish_postfix<'a, 'b, N: Namer>(
    ground: &Ground<'b, 'a, N>,
    state: &mut State,
    left: &mut u32,
    entries: &mut Vec<Entry<'a>>,
    postfix: InPostfix<'a>,
    end: End,
) -> Result<Control<'a>, Memory>
    requires ready { AllReady ground.now.code.now entries.old.items }
    requires entry { Ready ground.now.code.now (entry_of (Entry.Postfix postfix)) }
    requires room { opened (forms entries.old.items) + (opened (entry_of (Entry.Postfix postfix) ∷ []) + left.old) ≡ others }
    requires end { EndReady end }
    requires within { state.old.count ≤ visits }
    ensures same { IfOk result (λ c. (w : World (List ℕ)) → w.script ≡ ground.now.code.now → config w entries.new.items c state.new
        ≡ rest_in w entries.old.items (goes_on w (forms entries.old.items) (entry_of (Entry.Postfix postfix.entry)) (end_of end) state.old)) }
    ensures ready { IfOk result (λ c. AllReady ground.now.code.now entries.new.items) }
    ensures goes { IfOk result (λ c. Goes ground.now.code.now c) }
    ensures room { IfOk result (λ c. opened (forms entries.new.items) + left.new ≡ others) }
    ensures falls { IfOk result (λ c. GoesOut end state.old.count entries.old.items state.new.count entries.new.items c) }
{
    match end {
        End::Got(v) => {
            let control = got_postfix(ground, state, left, entries, postfix, v)?;
            Ok(control)
        }
        End::Goes => {
            let control = goes_postfix(ground, state, left, entries, postfix)?;
            Ok(control)
        }
        End::Returned(v) => {
            let control = returned_postfix(ground, state, left, entries, postfix, v)?;
            Ok(control)
        }
        End::Failed(fault) => {
            leave(state, left, postfix);
            Ok(Control::End(End::Failed(fault)))
        }
    }
}

/// A form of an expression goes on where its part has ended; without a value it ends as the part did.
fn finish_form<'a, 'b, N: Namer>(
    ground: &Ground<'b, 'a, N>,
    state: &mut State,
    made: &mut Vec<Named>,
    entries: &mut Vec<Entry<'a>>,
    form: InForm<'a>,
    end: End,
) -> Result<Control<'a>, Memory>
    requires ready { AllReady ground.now.code.now entries.old.items }
    requires entry { Ready ground.now.code.now (entry_of (Entry.Form form)) }
    requires end { EndReady end }
    requires within { state.old.count ≤ visits }
    ensures same { IfOk result (λ c. (w : World (List ℕ)) → RunsOn w ground.now.code.now (N.digest ground.now.namer.now)
        → whole (N.digest ground.now.namer.now) made.new.items (config w entries.new.items c state.new)
        ≡ whole (N.digest ground.now.namer.now) made.old.items
        (rest_in w entries.old.items (goes_on w (forms entries.old.items) (entry_of (Entry.Form form.entry)) (end_of end) state.old))) }
    ensures ready { IfOk result (λ c. AllReady ground.now.code.now entries.new.items) }
    ensures goes { IfOk result (λ c. Goes ground.now.code.now c) }
    ensures opened { IfOk result (λ c. opened (forms entries.new.items) ≡ opened (forms entries.old.items)) }
    ensures falls { IfOk result (λ c. GoesOut end state.old.count entries.old.items state.new.count entries.new.items c) }
{
    match end {
        End::Got(v) => {
            let control = got_form(ground, state, made, entries, form, v)?;
            Ok(control)
        }
        _ => Ok(Control::End(end)),
    }
}

/// A statement without a block goes on where its part has ended; without a value it ends as the part did.
fn finish_stmt<'a, 'b, N: Namer>(
    ground: &Ground<'b, 'a, N>,
    state: &mut State,
    entries: &mut Vec<Entry<'a>>,
    stmt: InStmt<'a>,
    end: End,
) -> Result<Control<'a>, Memory>
    requires ready { AllReady ground.now.code.now entries.old.items }
    requires entry { Ready ground.now.code.now (entry_of (Entry.Stmt stmt)) }
    requires end { EndReady end }
    requires within { state.old.count ≤ visits }
    ensures same { IfOk result (λ c. (w : World (List ℕ)) → w.script ≡ ground.now.code.now → config w entries.new.items c state.new
        ≡ rest_in w entries.old.items (goes_on w (forms entries.old.items) (entry_of (Entry.Stmt stmt.entry)) (end_of end) state.old)) }
    ensures ready { IfOk result (λ c. AllReady ground.now.code.now entries.new.items) }
    ensures goes { IfOk result (λ c. Goes ground.now.code.now c) }
    ensures opened { IfOk result (λ c. opened (forms entries.new.items) ≡ opened (forms entries.old.items)) }
    ensures falls { IfOk result (λ c. GoesOut end state.old.count entries.old.items state.new.count entries.new.items c) }
{
    match end {
        End::Got(v) => {
            let control = got_stmt(ground, state, entries, stmt, v)?;
            Ok(control)
        }
        _ => Ok(Control::End(end)),
    }
}

/// A block, or a statement that has one, goes on after a statement or a block.
fn goes_block<'a, 'b, N: Namer>(
    ground: &Ground<'b, 'a, N>,
    state: &mut State,
    entries: &mut Vec<Entry<'a>>,
    block: InBlock<'a>,
) -> Result<Control<'a>, Memory>
    requires ready { AllReady ground.now.code.now entries.old.items }
    requires entry { Ready ground.now.code.now (entry_of (Entry.Block block)) }
    requires within { state.old.count ≤ visits }
    ensures same { IfOk result (λ c. (w : World (List ℕ)) → w.script ≡ ground.now.code.now → config w entries.new.items c state.new
        ≡ rest_in w entries.old.items (goes_on w (forms entries.old.items) (entry_of (Entry.Block block.entry)) logic.End.goes state.old)) }
    ensures ready { IfOk result (λ c. AllReady ground.now.code.now entries.new.items) }
    ensures goes { IfOk result (λ c. Goes ground.now.code.now c) }
    ensures opened { IfOk result (λ c. opened (forms entries.new.items) ≡ opened (forms entries.old.items)) }
    ensures falls { IfOk result (λ c. GoesOut End.Goes state.old.count entries.old.items state.new.count entries.new.items c) }
{
    let code = ground.code;
    match block {
        InBlock::WhileBody(of) => {
            let control = turns(ground.alloc, code, state, entries, of)?;
            Ok(control)
        }
        InBlock::RepeatBody(of) => {
            let control = test_again(code, entries, of)?;
            Ok(control)
        }
        InBlock::ForBody(of) => {
            let control = each(code, state, entries, of)?;
            Ok(control)
        }
        InBlock::Block(of) => {
            let control = go_stmts(ground.alloc, code, state, entries, of)?;
            Ok(control)
        }
        _other => Ok(Control::End(End::Goes)),
    }
}

/// A block, or a statement that has one, goes on where its part has ended; after a return or a fault it ends so too.
fn finish_block<'a, 'b, N: Namer>(
    ground: &Ground<'b, 'a, N>,
    state: &mut State,
    entries: &mut Vec<Entry<'a>>,
    block: InBlock<'a>,
    end: End,
) -> Result<Control<'a>, Memory>
    requires ready { AllReady ground.now.code.now entries.old.items }
    requires entry { Ready ground.now.code.now (entry_of (Entry.Block block)) }
    requires end { EndReady end }
    requires within { state.old.count ≤ visits }
    ensures same { IfOk result (λ c. (w : World (List ℕ)) → w.script ≡ ground.now.code.now → config w entries.new.items c state.new
        ≡ rest_in w entries.old.items (goes_on w (forms entries.old.items) (entry_of (Entry.Block block.entry)) (end_of end) state.old)) }
    ensures ready { IfOk result (λ c. AllReady ground.now.code.now entries.new.items) }
    ensures goes { IfOk result (λ c. Goes ground.now.code.now c) }
    ensures opened { IfOk result (λ c. opened (forms entries.new.items) ≡ opened (forms entries.old.items)) }
    ensures falls { IfOk result (λ c. GoesOut end state.old.count entries.old.items state.new.count entries.new.items c) }
{
    match end {
        End::Got(v) => {
            let control = got_block(ground, state, entries, block, v)?;
            Ok(control)
        }
        End::Goes => {
            let control = goes_block(ground, state, entries, block)?;
            Ok(control)
        }
        _ => Ok(Control::End(end)),
    }
}

/// A form under way goes on where its part has ended.
pub fn finish<'a, 'b, N: Namer>(
    ground: &Ground<'b, 'a, N>,
    state: &mut State,
    left: &mut u32,
    made: &mut Vec<Named>,
    entries: &mut Vec<Entry<'a>>,
    entry: Entry<'a>,
    end: End,
) -> Result<Control<'a>, Memory>
    requires ready { AllReady ground.now.code.now entries.old.items }
    requires entry { Ready ground.now.code.now (entry_of entry) }
    requires room { opened (forms entries.old.items) + (opened (entry_of entry ∷ []) + left.old) ≡ others }
    requires end { EndReady end }
    requires within { state.old.count ≤ visits }
    ensures same { IfOk result (λ c. (w : World (List ℕ)) → RunsOn w ground.now.code.now (N.digest ground.now.namer.now)
        → whole (N.digest ground.now.namer.now) made.new.items (config w entries.new.items c state.new)
        ≡ whole (N.digest ground.now.namer.now) made.old.items
        (rest_in w entries.old.items (goes_on w (forms entries.old.items) (entry_of entry.entry) (end_of end) state.old))) }
    ensures ready { IfOk result (λ c. AllReady ground.now.code.now entries.new.items) }
    ensures goes { IfOk result (λ c. Goes ground.now.code.now c) }
    ensures room { IfOk result (λ c. opened (forms entries.new.items) + left.new ≡ others) }
    ensures falls { IfOk result (λ c. GoesOut end state.old.count entries.old.items state.new.count entries.new.items c) }
{
    match entry {
        Entry::Form(form) => {
            let control = finish_form(ground, state, made, entries, form, end)?;
            Ok(control)
        }
        Entry::Postfix(postfix) => {
            let control = finish_postfix(ground, state, left, entries, postfix, end)?;
            Ok(control)
        }
        Entry::Stmt(stmt) => {
            let control = finish_stmt(ground, state, entries, stmt, end)?;
            Ok(control)
        }
        Entry::Block(block) => {
            let control = finish_block(ground, state, entries, block, end)?;
            Ok(control)
        }
    }
}
