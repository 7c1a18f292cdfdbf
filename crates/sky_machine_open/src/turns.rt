// Loops, at one of their steps.

ghost use Rattle.std.specs.Prelude.{◌≡◌, IfOk};
ghost use Rattle.std.specs.Option.{option_map};
ghost use Rattle.sky_base.specs.TreeView.{at, exp_view};
ghost use Rattle.sky_base.specs.Res as logic;
ghost use Rattle.sky_base_law.specs.Opened as saved;
ghost use Rattle.sky_machine_entries.specs.Entries.{entry_of};
ghost use Rattle.sky_state.specs.StandView.{stack_view};
ghost use Rattle.sky_machine_open.specs.Steps.{for_at};

use crate::first::at_two;
use sky_base::stmt::Block;
use sky_base::text::{Memory, Txt};
use sky_base::tree::Expr;
use sky_base::value::Value;
use sky_machine_entries::entry::{Entry, ForBody, ForList, InBlock, Repeat, While};

/// A `while`, whose block stands at this node.
pub fn open_while<'a>(
    node: u32,
    block: u32,
    line: u32,
    col: u32,
    test: &'a Expr,
    body: &'a Block,
    step: u32,
    kept: &[Value],
) -> Option<Entry<'a>>
    ensures { option_map entry_of result ≡ saved.at_two step (stack_view kept.now)
        (logic.while_test node block (at line col) (exp_view test.now) body.now)
        (logic.while_body node block (at line col) (exp_view test.now) body.now) }
{
    let first = Entry::Block(InBlock::WhileTest(While {
        node,
        block,
        line,
        col,
        test,
        body,
    }));
    let second = Entry::Block(InBlock::WhileBody(While {
        node,
        block,
        line,
        col,
        test,
        body,
    }));
    at_two(step, kept, first, second)
}

/// A `do`, whose test stands at this node.
pub fn open_repeat<'a>(
    node: u32,
    test_at: u32,
    line: u32,
    col: u32,
    body: &'a Block,
    test: &'a Expr,
    step: u32,
    kept: &[Value],
) -> Option<Entry<'a>>
    ensures { option_map entry_of result ≡ saved.at_two step (stack_view kept.now)
        (logic.repeat_body node test_at (at line col) body.now (exp_view test.now))
        (logic.repeat_test node test_at (at line col) body.now (exp_view test.now)) }
{
    let first = Entry::Block(InBlock::RepeatBody(Repeat {
        node,
        test_at,
        line,
        col,
        body,
        test,
    }));
    let second = Entry::Block(InBlock::RepeatTest(Repeat {
        node,
        test_at,
        line,
        col,
        body,
        test,
    }));
    at_two(step, kept, first, second)
}

/// A `for` whose body runs: it keeps its list, and how many elements were taken.
pub fn open_turn<'a>(
    node: u32,
    block: u32,
    line: u32,
    col: u32,
    name: &'a Txt,
    body: &'a Block,
    kept: &[Value],
) -> Result<Option<Entry<'a>>, Memory>
    ensures { IfOk result (λ o. option_map entry_of o ≡ saved.each_open node block (at line col) name.now body.now (stack_view kept.now)) }
{
    let [first, second] = kept else {
        return Ok(None);
    };
    let Value::List(list) = first else {
        return Ok(None);
    };
    let Value::Int(taken) = second else {
        return Ok(None);
    };
    if *taken < 0 {
        return Ok(None);
    }
    let list = list.copy()?;
    Ok(Some(Entry::Block(InBlock::ForBody(ForBody {
        node,
        block,
        taken: *taken as usize,
        line,
        col,
        name,
        list,
        body,
    }))))
}

/// A `for`, whose block stands at this node.
pub fn open_for<'a>(
    node: u32,
    block: u32,
    line: u32,
    col: u32,
    name: &'a Txt,
    body: &'a Block,
    step: u32,
    kept: &[Value],
) -> Result<Option<Entry<'a>>, Memory>
    ensures { IfOk result (λ o. option_map entry_of o ≡ for_at step node block (at line col) name.now body.now (stack_view kept.now)) }
{
    match step {
        1 => Ok(Some(Entry::Block(InBlock::ForList(ForList {
            node,
            block,
            line,
            col,
            name,
            body,
        })))),
        2 => {
            let entry = open_turn(node, block, line, col, name, body, kept)?;
            Ok(entry)
        }
        _ => Ok(None),
    }
}
