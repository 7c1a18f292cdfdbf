// The bodies of functions, which expressions reach through what they are handed, so that blocks and
// expressions are no one cycle.

ghost use Rattle.std.specs.Prelude.{◌≡◌, ◌<◌, ◌∷◌, List, length, IfOk};
ghost use Rattle.sky_base.specs.StmtView.{stm_view};
ghost use Rattle.sky_parse_grammar.specs.Machine.{Item, run, kinds};
ghost use Rattle.sky_parse_expr.specs.Reads.{ReadsBlock};
ghost use Rattle.sky_parse.specs.Statements.{ReadsStm};
ghost use Rattle.sky_parse_expr.specs.Bodies.{CanRead, ReadsBodies};
ghost use Rattle.sky_parse_expr.specs.Runs.{Runs};

use crate::stmt::{block, stmt};
use sky_base::stmt::{Block, Stmt};
use sky_parse_expr::look::Fail;
use sky_parse_held::made::Made;
use sky_text::token::Token;
use std::alloc::Global;

/// A block in which this reads the bodies of anonymous functions.
fn block_by<'a, F: for<'b> Fn(&mut Made, &'b [Token]) -> Result<(Block, &'b [Token]), Fail>>(
    alloc: Global,
    body: F,
    made: &mut Made,
    ts: &'a [Token],
) -> Result<(Block, &'a [Token]), Fail>
    requires can { CanRead (F.pre body) (length ts.now) }
    requires bodies { ReadsBodies (F.post body) }
    ensures read { Runs (λ x. x.1.now) (λ k. run (Item.block ∷ k) (kinds ts.now)) result }
    ensures tree { IfOk result (λ x. ReadsBlock x.0 made.old made.new ts.now x.1.now) }
    ensures less { IfOk result (λ x. length x.1.now < length ts.now) }
{
    block(alloc, &body, made, ts)
}

/// A statement in which this reads the bodies of anonymous functions.
fn stmt_by<'a, F: for<'b> Fn(&mut Made, &'b [Token]) -> Result<(Block, &'b [Token]), Fail>>(
    alloc: Global,
    body: F,
    made: &mut Made,
    ts: &'a [Token],
) -> Result<(Stmt, &'a [Token]), Fail>
    requires can { CanRead (F.pre body) (length ts.now) }
    requires bodies { ReadsBodies (F.post body) }
    ensures read { Runs (λ x. x.1.now) (λ k. run (Item.stmt ∷ k) (kinds ts.now)) result }
    ensures tree { IfOk result (λ x. ReadsStm (stm_view x.0) made.old made.new ts.now x.1.now) }
    ensures less { IfOk result (λ x. length x.1.now < length ts.now) }
{
    stmt(alloc, &body, made, ts)
}

/// The block of a function, with the bodies inside it.
#[cycle(body)]
pub fn whole_block<'a>(
    alloc: Global,
    made: &mut Made,
    ts: &'a [Token],
) -> Result<(Block, &'a [Token]), Fail>
    ensures read { Runs (λ x. x.1.now) (λ k. run (Item.block ∷ k) (kinds ts.now)) result }
    ensures tree { IfOk result (λ x. ReadsBlock x.0 made.old made.new ts.now x.1.now) }
    ensures less { IfOk result (λ x. length x.1.now < length ts.now) }
{
    let within = ts.len();
    block_by(
        alloc,
        move |made, ts| -> Result<(Block, &[Token]), Fail>
            requires { length ts.now < within }
            ensures read { Runs (λ x. x.1.now) (λ k. run (Item.block ∷ k) (kinds ts.now)) result }
            ensures tree { IfOk result (λ x. ReadsBlock x.0 made.old made.new ts.now x.1.now) }
            ensures less { IfOk result (λ x. length x.1.now < length ts.now) }
        {
            let _within = within;
            whole_block(alloc, made, ts)
        },
        made,
        ts,
    )
}

/// A statement at the top of a script.
pub fn top_stmt<'a>(
    alloc: Global,
    made: &mut Made,
    ts: &'a [Token],
) -> Result<(Stmt, &'a [Token]), Fail>
    ensures read { Runs (λ x. x.1.now) (λ k. run (Item.stmt ∷ k) (kinds ts.now)) result }
    ensures tree { IfOk result (λ x. ReadsStm (stm_view x.0) made.old made.new ts.now x.1.now) }
    ensures less { IfOk result (λ x. length x.1.now < length ts.now) }
{
    stmt_by(
        alloc,
        move |made, ts| -> Result<(Block, &[Token]), Fail>
            ensures read { Runs (λ x. x.1.now) (λ k. run (Item.block ∷ k) (kinds ts.now)) result }
            ensures tree { IfOk result (λ x. ReadsBlock x.0 made.old made.new ts.now x.1.now) }
            ensures less { IfOk result (λ x. length x.1.now < length ts.now) }
        { whole_block(alloc, made, ts) },
        made,
        ts,
    )
}
