// The arms of a choice, and the block after the last `else`.

ghost use Rattle.std.specs.Prelude.{◌≡◌, ◌≤◌, ◌+◌, ◌*◌, ℕ, List, IfOk, length};
ghost use Rattle.sky_base.specs.View.{view};
ghost use Rattle.sky_base.specs.Tree.{arms_nodes};
ghost use Rattle.sky_base.specs.StmtView.{arms_view};
ghost use Rattle.sky_base.specs.Res as logic;
ghost use Rattle.sky_base.specs.Eval.{World, eval_arms, eval_else};
ghost use Rattle.sky_base_law.specs.Opened.{HasArms, HasElse};
ghost use Rattle.sky_base_law.specs.Nodes.{node_at};
ghost use Rattle.sky_base_scope.specs.Plain.{Vars};
ghost use Rattle.sky_machine_entries.specs.Config.{body_in, goes_on, rest_in, config, opened};
ghost use Rattle.sky_machine_entries.specs.Entries.{last_block, entry_of, forms};
ghost use Rattle.sky_machine_entries.specs.Falls.{load};
ghost use Rattle.sky_machine_entries.specs.Ready.{Ready, AllReady, Goes};

use crate::block::open_block;
use sky_base::stmt::{Arm, Block};
use sky_base::text::Memory;
use sky_base::value::Value;
use sky_machine_code::code::Code;
use sky_machine_entries::control::{Control, End};
use sky_machine_entries::entry::{ArmTest, Entry, InBlock};
use sky_machine_entries::list::push;
use sky_machine_entries::visit::decided;

/// Where a choice stands before one of its arms: its node, the step and the number of the arm, the arms that are left,
/// and the last block.
#[derive(Drop)]
pub struct Choice<'a> {
    pub node: u32,
    pub step: usize,
    pub next: u32,
    pub arms: &'a [Arm],
    pub otherwise: Option<&'a Block>,
}

/// The arms that are left, and the last block.
pub fn next_arm<'a>(
    code: &Code,
    entries: &mut Vec<Entry<'a>>,
    choice: Choice<'a>,
) -> Result<Control<'a>, Memory>
    requires ready { AllReady code.now entries.old.items }
    requires step { choice.step ≤ choice.next }
    requires arms { HasArms (λ i. node_at code.now i) (arms_view choice.arms.now) choice.next }
    requires other { HasElse (λ i. node_at code.now i) (last_block choice.otherwise) (choice.next + arms_nodes (arms_view choice.arms.now)) }
    ensures same { IfOk result (λ c. (w : World (List ℕ)) (st : Vars) → config w entries.new.items c st
        ≡ rest_in w entries.old.items (eval_arms w (body_in w (forms entries.old.items)) (arms_view choice.entry.arms.now) choice.entry.node
        choice.entry.step choice.entry.next (choice.entry.next + arms_nodes (arms_view choice.entry.arms.now))
        (last_block choice.entry.otherwise) (λ t. eval_else w (body_in w (forms entries.old.items)) (last_block choice.entry.otherwise)
        (choice.entry.next + arms_nodes (arms_view choice.entry.arms.now)) t) st)) }
    ensures ready { IfOk result (λ c. AllReady code.now entries.new.items) }
    ensures goes { IfOk result (λ c. Goes code.now c) }
    ensures opened { IfOk result (λ c. opened (forms entries.new.items) ≡ opened (forms entries.old.items)) }
    ensures light { IfOk result (λ c. load entries.new.items c ≤ 2 * length entries.old.items + 3) }
{
    let Choice {
        node,
        step,
        next,
        arms,
        otherwise,
    } = choice;
    match arms.split_first() {
        None => match otherwise {
            None => Ok(Control::End(End::Goes)),
            Some(block) => {
                let control = open_block(code, entries, next, block)?;
                Ok(control)
            }
        },
        Some((arm, arms)) => {
            let block = code.after_exp(next, &arm.test);
            push(
                entries,
                Entry::Block(InBlock::Arm(ArmTest {
                    node,
                    step,
                    block,
                    line: arm.line,
                    col: arm.col,
                    body: &arm.body,
                    arms,
                    otherwise,
                })),
            )?;
            Ok(Control::Begin(next, &arm.test))
        }
    }
}

/// A choice goes on with the value of an arm's test.
pub fn got_arm<'a>(
    code: &Code,
    entries: &mut Vec<Entry<'a>>,
    arm: ArmTest<'a>,
    v: Value,
) -> Result<Control<'a>, Memory>
    requires ready { AllReady code.now entries.old.items }
    requires entry { Ready code.now (entry_of (Entry.Block (InBlock.Arm arm))) }
    ensures same { IfOk result (λ c. (w : World (List ℕ)) (st : Vars) → config w entries.new.items c st
        ≡ rest_in w entries.old.items (goes_on w (forms entries.old.items) (entry_of (Entry.Block (InBlock.Arm arm.entry)))
        (logic.End.got (view v)) st)) }
    ensures ready { IfOk result (λ c. AllReady code.now entries.new.items) }
    ensures goes { IfOk result (λ c. Goes code.now c) }
    ensures opened { IfOk result (λ c. opened (forms entries.new.items) ≡ opened (forms entries.old.items)) }
    ensures light { IfOk result (λ c. load entries.new.items c ≤ 2 * length entries.old.items + 4) }
{
    match decided(&v, arm.line, arm.col) {
        Err(fault) => Ok(Control::End(End::Failed(fault))),
        Ok(true) => {
            let control = open_block(code, entries, arm.block, arm.body)?;
            Ok(control)
        }
        Ok(false) => {
            let next = code.after_block(arm.block, arm.body);
            let control = next_arm(
                code,
                entries,
                Choice {
                    node: arm.node,
                    step: arm.step + 1,
                    next,
                    arms: arm.arms,
                    otherwise: arm.otherwise,
                },
            )?;
            Ok(control)
        }
    }
}
