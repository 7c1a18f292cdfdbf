// A `while` that goes on after a turn: as long as its test and the statements of its block end at once, turn follows turn
// with no form put on the list. The visits are the same ones in the same order.

ghost use Rattle.std.specs.Prelude.{◌≡◌, ◌≤◌, ℕ, List, IfOk};
ghost use Rattle.sky_base_law.specs.Nodes.{node_at};
ghost use Rattle.sky_base.specs.TreeView.{at, exp_view};
ghost use Rattle.sky_base.specs.Res.{visits};
ghost use Rattle.sky_base.specs.Eval.{World, go_while, body_at};
ghost use Rattle.sky_machine_entries.specs.Config.{body_in, rest_in, config, opened};
ghost use Rattle.sky_machine_entries.specs.Entries.{entry_of, forms};
ghost use Rattle.sky_machine_entries.specs.Falls.{GoesOut};
ghost use Rattle.sky_machine_entries.specs.Ready.{Ready, AllReady, Goes, HasBlock};
ghost use Rattle.sky_machine_exprs.specs.AtOnce.{simple_view};
ghost use Rattle.sky_machine_stmts.specs.AtOnce.{StandsAt};
ghost use Rattle.sky_machine_stmts.specs.Turned.{turned, stopped, HasTurned, HasStopped, TurnStandsAt};

use crate::at_once::{Stmts, stmts_ahead};
use crate::block::next_stmt;
use crate::loops::turn;
use sky_base::text::Memory;
use sky_base_scope::state::State;
use sky_machine_code::code::Code;
use sky_machine_entries::control::{Control, End};
use sky_machine_entries::entry::{BlockAt, Entry, InBlock, While};
use sky_machine_entries::list::push;
use sky_machine_entries::visit::decided;
use sky_machine_exprs::at_once::{Simple, as_simple, simple_end};
use std::alloc::Global;

/// What comes of a turn that is gone through at once.
#[derive(Drop)]
pub enum Turned<'a> {
    /// The turn has ended, and the loop goes on with its test.
    Again,
    /// The loop has ended, or the block stands.
    Stops(Stmts<'a>),
}

// A turn of a `while` whose test ends at once.
fn turn_ahead<'a>(
    alloc: Global,
    code: &Code,
    state: &mut State,
    of: &While<'a>,
    test: &Simple,
) -> Result<Turned<'a>, Memory>
    requires test { simple_view test.now ≡ exp_view of.now.test.now }
    requires block { HasBlock (λ i. node_at code.now i) of.now.block of.now.body.now }
    requires within { state.old.count ≤ visits }
    ensures same { IfOk result (λ t. (w : World (List ℕ)) (d : ℕ) → w.script ≡ code.now
        → go_while w (body_at w d) of.now.node of.now.block (at of.now.line of.now.col) (exp_view of.now.test.now) of.now.body.now state.old
        ≡ turned w (body_at w d) of.now t state.new) }
    ensures stands { IfOk result (TurnStandsAt (λ i. node_at code.now i)) }
    ensures more { IfOk result (λ t. HasTurned state.old.count state.new.count t) }
    ensures within { IfOk result (λ t. state.new.count ≤ visits) }
{
    let end = simple_end(alloc, code, state, test)?;
    match end {
        End::Got(v) => match decided(&v, of.line, of.col) {
            Err(fault) => Ok(Turned::Stops(Stmts::Ended(End::Failed(fault)))),
            Ok(false) => Ok(Turned::Stops(Stmts::Ended(End::Goes))),
            Ok(true) => {
                let next = code.inside(of.block);
                let block = BlockAt {
                    node: of.block,
                    step: 0,
                    next,
                    rest: of.body.as_slice(),
                };
                let ahead = stmts_ahead(alloc, code, state, block)?;
                match ahead {
                    Stmts::Ended(end) => match end {
                        End::Goes => Ok(Turned::Again),
                        _ => Ok(Turned::Stops(Stmts::Ended(end))),
                    },
                    _ => Ok(Turned::Stops(ahead)),
                }
            }
        },
        _ => Ok(Turned::Stops(Stmts::Ended(end))),
    }
}

// Turns of a `while` whose test ends at once, as long as its block does.
fn turns_ahead<'a>(
    alloc: Global,
    code: &Code,
    state: &mut State,
    of: &While<'a>,
    test: &Simple,
) -> Result<Stmts<'a>, Memory>
    requires test { simple_view test.now ≡ exp_view of.now.test.now }
    requires block { HasBlock (λ i. node_at code.now i) of.now.block of.now.body.now }
    requires within { state.old.count ≤ visits }
    ensures same { IfOk result (λ s. (w : World (List ℕ)) (d : ℕ) → w.script ≡ code.now
        → go_while w (body_at w d) of.now.node of.now.block (at of.now.line of.now.col) (exp_view of.now.test.now) of.now.body.now state.old
        ≡ stopped w (body_at w d) of.now s state.new) }
    ensures stands { IfOk result (StandsAt (λ i. node_at code.now i)) }
    ensures more { IfOk result (λ s. HasStopped state.old.count state.new.count s) }
    ensures within { IfOk result (λ s. state.new.count ≤ visits) }
{
    'turns: loop {
        let turned = turn_ahead(alloc, code, state, of, test)?;
        match turned {
            Turned::Again => {}
            Turned::Stops(stop) => return Ok(stop),
        }
    }
}

/// A `while` from its test: turns, as long as they end at once.
pub fn turns<'a>(
    alloc: Global,
    code: &Code,
    state: &mut State,
    entries: &mut Vec<Entry<'a>>,
    of: While<'a>,
) -> Result<Control<'a>, Memory>
    requires ready { AllReady code.now entries.old.items }
    requires entry { Ready code.now (entry_of (Entry.Block (InBlock.WhileTest of))) }
    requires within { state.old.count ≤ visits }
    ensures same { IfOk result (λ c. (w : World (List ℕ)) → w.script ≡ code.now → config w entries.new.items c state.new
        ≡ rest_in w entries.old.items (go_while w (body_in w (forms entries.old.items)) of.entry.node of.entry.block
        (at of.entry.line of.entry.col) (exp_view of.entry.test.now) of.entry.body.now state.old)) }
    ensures ready { IfOk result (λ c. AllReady code.now entries.new.items) }
    ensures goes { IfOk result (λ c. Goes code.now c) }
    ensures opened { IfOk result (λ c. opened (forms entries.new.items) ≡ opened (forms entries.old.items)) }
    ensures falls { IfOk result (λ c. GoesOut End.Goes state.old.count entries.old.items state.new.count entries.new.items c) }
{
    match as_simple(of.test) {
        None => {
            let control = turn(code, entries, of)?;
            Ok(control)
        }
        Some(test) => {
            let stop = turns_ahead(alloc, code, state, &of, &test)?;
            match stop {
                Stmts::Ended(end) => Ok(Control::End(end)),
                Stmts::Stands(block) => {
                    push(entries, Entry::Block(InBlock::WhileBody(of)))?;
                    let control = next_stmt(code, entries, block)?;
                    Ok(control)
                }
            }
        }
    }
}
