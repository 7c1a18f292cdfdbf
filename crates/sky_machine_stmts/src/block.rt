// Blocks: their statements, one after the other.

ghost use Rattle.std.specs.Prelude.{◌≡◌, ◌≤◌, ◌+◌, ◌*◌, ℕ, List, IfOk, length};
ghost use Rattle.sky_base.specs.StmtView.{stms_view};
ghost use Rattle.sky_base.specs.Eval.{World, eval_stms, eval_block};
ghost use Rattle.sky_base_law.specs.Opened.{HasStms};
ghost use Rattle.sky_base_law.specs.Nodes.{node_at};
ghost use Rattle.sky_base_scope.specs.Plain.{Vars};
ghost use Rattle.sky_machine_entries.specs.Config.{body_in, rest_in, config, opened};
ghost use Rattle.sky_machine_entries.specs.Entries.{forms};
ghost use Rattle.sky_machine_entries.specs.Falls.{load};
ghost use Rattle.sky_machine_entries.specs.Ready.{AllReady, Goes, HasBlock};

use sky_base::stmt::Block;
use sky_base::text::Memory;
use sky_machine_code::code::Code;
use sky_machine_entries::control::{Control, End};
use sky_machine_entries::entry::{BlockAt, Entry, InBlock};
use sky_machine_entries::list::push;

/// The statements of a block that are left.
pub fn next_stmt<'a>(
    code: &Code,
    entries: &mut Vec<Entry<'a>>,
    block: BlockAt<'a>,
) -> Result<Control<'a>, Memory>
    requires ready { AllReady code.now entries.old.items }
    requires step { block.step ≤ block.next }
    requires has { HasStms (λ i. node_at code.now i) (stms_view block.rest.now) block.next }
    ensures same { IfOk result (λ c. (w : World (List ℕ)) (st : Vars) → config w entries.new.items c st
        ≡ rest_in w entries.old.items (eval_stms w (body_in w (forms entries.old.items)) (stms_view block.entry.rest.now) block.entry.node
        block.entry.step block.entry.next st)) }
    ensures ready { IfOk result (λ c. AllReady code.now entries.new.items) }
    ensures goes { IfOk result (λ c. Goes code.now c) }
    ensures opened { IfOk result (λ c. opened (forms entries.new.items) ≡ opened (forms entries.old.items)) }
    ensures light { IfOk result (λ c. load entries.new.items c ≤ 2 * length entries.old.items + 3) }
{
    let BlockAt {
        node,
        step,
        next,
        rest,
    } = block;
    match rest.split_first() {
        None => Ok(Control::End(End::Goes)),
        Some((first, rest)) => {
            let after = code.after_stmt(next, first);
            push(
                entries,
                Entry::Block(InBlock::Block(BlockAt {
                    node,
                    step: step + 1,
                    next: after,
                    rest,
                })),
            )?;
            Ok(Control::Do(next, first))
        }
    }
}

/// A block from its first statement, at its node.
pub fn open_block<'a>(
    code: &Code,
    entries: &mut Vec<Entry<'a>>,
    node: u32,
    block: &'a Block,
) -> Result<Control<'a>, Memory>
    requires ready { AllReady code.now entries.old.items }
    requires has { HasBlock (λ i. node_at code.now i) node block.now }
    ensures same { IfOk result (λ c. (w : World (List ℕ)) (st : Vars) → config w entries.new.items c st
        ≡ rest_in w entries.old.items (eval_block w (body_in w (forms entries.old.items)) block.entry.now node st)) }
    ensures ready { IfOk result (λ c. AllReady code.now entries.new.items) }
    ensures goes { IfOk result (λ c. Goes code.now c) }
    ensures opened { IfOk result (λ c. opened (forms entries.new.items) ≡ opened (forms entries.old.items)) }
    ensures light { IfOk result (λ c. load entries.new.items c ≤ 2 * length entries.old.items + 3) }
{
    let next = code.inside(node);
    let control = next_stmt(
        code,
        entries,
        BlockAt {
            node,
            step: 0,
            next,
            rest: block.as_slice(),
        },
    )?;
    Ok(control)
}
