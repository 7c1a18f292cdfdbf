// Statements and blocks. The functions call each other only where a block opens. Names are held where
// they stand, in front of what follows them.

ghost use Rattle.std.specs.Prelude.{◌≡◌, ◌<◌, ◌≤◌, ◌∷◌, ◌++◌, [], List, true, length, IfOk, IfSome};
ghost use Rattle.sky_base.specs.TreeView.{at, exp_view, steps_view};
ghost use Rattle.sky_base.specs.StmtView.{stm_view, arms_view};
ghost use Rattle.sky_parse_grammar.specs.Machine.{Item, tails, test_then, run, kinds};
ghost use Rattle.sky_parse_grammar.specs.Grammar.{Fits, Spelled, name_at, word_at, sign_at};
ghost use Rattle.sky_parse_grammar.specs.Grammar as g;
ghost use Rattle.sky_parse_held.specs.Held.{Held, seen_name};
ghost use Rattle.sky_parse_expr.specs.Reads.{Onto, ReadsBlock, ReadsSteps};
ghost use Rattle.sky_parse.specs.Statements.{ReadsArm, ReadsEach, ReadsEnded, ReadsStm, ReadsStms, ReadsTest};
ghost use Rattle.sky_parse_expr.specs.Bodies.{CanRead, ReadsBodies};
ghost use Rattle.sky_parse_expr.specs.Runs.{Runs, Goes};
ghost use Rattle.sky_text.specs.declared.token.Token.{Token};

use sky_base::stmt::{Arm, Arms, Block, Stmt};
use sky_base::text::Txt;
use sky_base::tree::{Expr, Step};
use sky_parse_expr::build::postfix;
use sky_parse_expr::expr::{expr, onward, steps};
use sky_parse_expr::look::{Fail, eat, eat_word, is_word, stands, want, want_name, want_word};
use sky_parse_grammar::level::Level;
use sky_parse_held::made::Made;
use sky_text::token::{Sign, Token, TokenKind, Word};
use std::alloc::Global;

/// An expression and the semicolon behind it.
fn ended<'a, F: for<'b> Fn(&mut Made, &'b [Token]) -> Result<(Block, &'b [Token]), Fail>>(
    alloc: Global,
    body: &F,
    made: &mut Made,
    ts: &'a [Token],
) -> Result<(Expr, &'a [Token]), Fail>
    requires can { CanRead (F.pre body.now) (length ts.now) }
    requires bodies { ReadsBodies (F.post body.now) }
    ensures read { Runs (λ x. x.1.now) (λ k. run (Item.level Level.Either ∷ Item.sign Sign.Semicolon ∷ k) (kinds ts.now)) result }
    ensures tree { IfOk result (λ x. ReadsEnded (exp_view x.0) made.old made.new ts.now x.1.now) }
    ensures less { IfOk result (λ x. length x.1.now < length ts.now) }
{
    let (e, rest) = expr(alloc, body, made, ts)?;
    let rest = want(rest, Sign::Semicolon)?;
    Ok((e, rest))
}

/// A test in parentheses.
fn test<'a, F: for<'b> Fn(&mut Made, &'b [Token]) -> Result<(Block, &'b [Token]), Fail>>(
    alloc: Global,
    body: &F,
    made: &mut Made,
    ts: &'a [Token],
) -> Result<(Expr, &'a [Token]), Fail>
    requires can { CanRead (F.pre body.now) (length ts.now) }
    requires bodies { ReadsBodies (F.post body.now) }
    ensures read { Runs (λ x. x.1.now) (λ k. run (test_then k) (kinds ts.now)) result }
    ensures tree { IfOk result (λ x. ReadsTest (exp_view x.0) made.old made.new ts.now x.1.now) }
    ensures less { IfOk result (λ x. length x.1.now < length ts.now) }
{
    let rest = want(ts, Sign::OpenRound)?;
    let (e, rest) = expr(alloc, body, made, rest)?;
    let rest = want(rest, Sign::CloseRound)?;
    Ok((e, rest))
}

/// What stands in the parentheses of a `for`, and these.
fn each_of<'a, F: for<'b> Fn(&mut Made, &'b [Token]) -> Result<(Block, &'b [Token]), Fail>>(
    alloc: Global,
    body: &F,
    made: &mut Made,
    ts: &'a [Token],
) -> Result<((Txt, Expr), &'a [Token]), Fail>
    requires can { CanRead (F.pre body.now) (length ts.now) }
    requires bodies { ReadsBodies (F.post body.now) }
    ensures read { Runs (λ x. x.1.now) (λ k. run
        (Item.sign Sign.OpenRound ∷ Item.name ∷ Item.word Word.In ∷ Item.level Level.Either ∷ Item.sign Sign.CloseRound ∷ k) (kinds ts.now))
        result }
    ensures tree { IfOk result (λ x. ReadsEach x.0.0 (exp_view x.0.1) made.old made.new ts.now x.1.now) }
    ensures less { IfOk result (λ x. length x.1.now < length ts.now) }
{
    let rest = want(ts, Sign::OpenRound)?;
    let (name, _, _, rest) = want_name(rest)?;
    let Ok(name) = made.seen(&name) else {
        return Err(Fail::Memory)
    };
    let rest = want_word(rest, Word::In)?;
    let (list, rest) = expr(alloc, body, made, rest)?;
    let rest = want(rest, Sign::CloseRound)?;
    Ok(((name, list), rest))
}

/// An expression statement that begins with a name, which is held, and with these steps.
fn just<'a, F: for<'b> Fn(&mut Made, &'b [Token]) -> Result<(Block, &'b [Token]), Fail>>(
    alloc: Global,
    body: &F,
    made: &mut Made,
    name: Txt,
    line: u32,
    col: u32,
    read: Vec<Step>,
    ts: &'a [Token],
) -> Result<(Stmt, &'a [Token]), Fail>
    requires can { CanRead (F.pre body.now) (length ts.now) }
    requires bodies { ReadsBodies (F.post body.now) }
    ensures read { Runs (λ x. x.1.now) (λ k. run (Item.steps ∷ tails Level.Either (Item.sign Sign.Semicolon ∷ k)) (kinds ts.now)) result }
    ensures tree { IfOk result (λ x. (h a : Held) (t : Token) (from : List Token) → a ≡ seen_name name h → Fits (name_at name (at line col)) t
        → Onto (λ ys. ReadsSteps (steps_view ys)) read.items a made.old from ts.now → ReadsStm (stm_view x.0) h made.new (t ∷ from) x.1.now) }
    ensures less { IfOk result (λ x. length x.1.now < length ts.now) }
{
    let (steps, rest) = steps(alloc, body, made, read, ts)?;
    let Ok(first) = postfix(alloc, Expr::Name { name, line, col }, steps) else {
        return Err(Fail::Memory)
    };
    let (inner, rest) = onward(alloc, body, made, Level::Either, first, rest)?;
    let rest = want(rest, Sign::Semicolon)?;
    Ok((Stmt::Just { line, col, inner }, rest))
}

/// A statement that begins with a name, behind this name and the bracket that opens an index.
fn indexed<'a, F: for<'b> Fn(&mut Made, &'b [Token]) -> Result<(Block, &'b [Token]), Fail>>(
    alloc: Global,
    body: &F,
    made: &mut Made,
    name: Txt,
    name_line: u32,
    name_col: u32,
    line: u32,
    col: u32,
    ts: &'a [Token],
) -> Result<(Stmt, &'a [Token]), Fail>
    requires can { CanRead (F.pre body.now) (length ts.now) }
    requires bodies { ReadsBodies (F.post body.now) }
    ensures read { Runs (λ x. x.1.now) (λ k. run (Item.level Level.Either ∷ Item.sign Sign.CloseSquare ∷ Item.indexed ∷ k) (kinds ts.now)) result }
    ensures tree { IfOk result (λ x. (h : Held) (t b : Token) → made.old ≡ seen_name name h → Fits (name_at name (at name_line name_col)) t
        → Fits (sign_at Sign.OpenSquare (at line col)) b → ReadsStm (stm_view x.0) h made.new (t ∷ b ∷ ts.now) x.1.now) }
    ensures less { IfOk result (λ x. length x.1.now < length ts.now) }
{
    let (at, rest) = expr(alloc, body, made, ts)?;
    let rest = want(rest, Sign::CloseSquare)?;
    if let Some((_, rest)) = eat(rest, Sign::Assign) {
        let (value, rest) = ended(alloc, body, made, rest)?;
        return Ok((
            Stmt::Put {
                name,
                name_line,
                name_col,
                line,
                col,
                at,
                value,
            },
            rest,
        ));
    }
    let mut read = Vec::new(alloc);
    let Ok(()) = read.push(Step::Index { at, line, col }) else {
        return Err(Fail::Memory)
    };
    just(alloc, body, made, name, name_line, name_col, read, rest)
}

/// A statement that begins with a name, behind this name, which is held.
fn named<'a, F: for<'b> Fn(&mut Made, &'b [Token]) -> Result<(Block, &'b [Token]), Fail>>(
    alloc: Global,
    body: &F,
    made: &mut Made,
    name: Txt,
    line: u32,
    col: u32,
    ts: &'a [Token],
) -> Result<(Stmt, &'a [Token]), Fail>
    requires can { CanRead (F.pre body.now) (length ts.now) }
    requires bodies { ReadsBodies (F.post body.now) }
    ensures read { Runs (λ x. x.1.now) (λ k. run (Item.named ∷ k) (kinds ts.now)) result }
    ensures tree { IfOk result (λ x. (h : Held) (t : Token) → made.old ≡ seen_name name h → Fits (name_at name (at line col)) t
        → ReadsStm (stm_view x.0) h made.new (t ∷ ts.now) x.1.now) }
    ensures less { IfOk result (λ x. length x.1.now < length ts.now) }
{
    if let Some((_, rest)) = eat(ts, Sign::Assign) {
        let (value, rest) = ended(alloc, body, made, rest)?;
        return Ok((
            Stmt::Set {
                name,
                line,
                col,
                value,
            },
            rest,
        ));
    }
    if let Some((sign, rest)) = eat(ts, Sign::AddAssign) {
        let (value, rest) = ended(alloc, body, made, rest)?;
        let (name_line, name_col) = (line, col);
        return Ok((
            Stmt::Add {
                name,
                name_line,
                name_col,
                line: sign.line,
                col: sign.col,
                value,
            },
            rest,
        ));
    }
    if let Some((sign, rest)) = eat(ts, Sign::OpenSquare) {
        return indexed(
            alloc, body, made, name, line, col, sign.line, sign.col, rest,
        );
    }
    just(alloc, body, made, name, line, col, Vec::new(alloc), ts)
}

/// What stands behind the word `return`.
fn back<'a, F: for<'b> Fn(&mut Made, &'b [Token]) -> Result<(Block, &'b [Token]), Fail>>(
    alloc: Global,
    body: &F,
    made: &mut Made,
    line: u32,
    col: u32,
    ts: &'a [Token],
) -> Result<(Stmt, &'a [Token]), Fail>
    requires can { CanRead (F.pre body.now) (length ts.now) }
    requires bodies { ReadsBodies (F.post body.now) }
    ensures read { Runs (λ x. x.1.now) (λ k. run (Item.back ∷ k) (kinds ts.now)) result }
    ensures tree { IfOk result (λ x. (t : Token) → Fits (word_at Word.Return (at line col)) t
        → ReadsStm (stm_view x.0) made.old made.new (t ∷ ts.now) x.1.now) }
    ensures less { IfOk result (λ x. length x.1.now < length ts.now) }
{
    if let Some((_, rest)) = eat(ts, Sign::Semicolon) {
        return Ok((
            Stmt::Return {
                line,
                col,
                value: None,
            },
            rest,
        ));
    }
    let (value, rest) = ended(alloc, body, made, ts)?;
    Ok((
        Stmt::Return {
            line,
            col,
            value: Some(value),
        },
        rest,
    ))
}

/// A statement at the front.
#[cycle(stmt)]
pub fn stmt<'a, F: for<'b> Fn(&mut Made, &'b [Token]) -> Result<(Block, &'b [Token]), Fail>>(
    alloc: Global,
    body: &F,
    made: &mut Made,
    ts: &'a [Token],
) -> Result<(Stmt, &'a [Token]), Fail>
    requires can { CanRead (F.pre body.now) (length ts.now) }
    requires bodies { ReadsBodies (F.post body.now) }
    ensures read { Runs (λ x. x.1.now) (λ k. run (Item.stmt ∷ k) (kinds ts.now)) result }
    ensures tree { IfOk result (λ x. ReadsStm (stm_view x.0) made.old made.new ts.now x.1.now) }
    ensures less { IfOk result (λ x. length x.1.now < length ts.now) }
{
    let Some((first, rest)) = ts.split_first() else {
        return Err(Fail::Stuck(0))
    };
    let (line, col) = (first.line, first.col);
    if let TokenKind::Name(name) = &first.kind {
        let Ok(name) = made.seen(name) else {
            return Err(Fail::Memory)
        };
        return named(alloc, body, made, name, line, col, rest);
    }
    if is_word(&first.kind, Word::Return) {
        return back(alloc, body, made, line, col, rest);
    }
    if is_word(&first.kind, Word::If) {
        return choice(alloc, body, made, line, col, rest);
    }
    if is_word(&first.kind, Word::While) {
        return while_loop(alloc, body, made, line, col, rest);
    }
    if is_word(&first.kind, Word::Do) {
        return do_loop(alloc, body, made, line, col, rest);
    }
    if is_word(&first.kind, Word::For) {
        return for_loop(alloc, body, made, line, col, rest);
    }
    let (inner, rest) = ended(alloc, body, made, ts)?;
    Ok((Stmt::Just { line, col, inner }, rest))
}

/// What stands behind the first `if` of a choice.
#[cycle(stmt)]
fn choice<'a, F: for<'b> Fn(&mut Made, &'b [Token]) -> Result<(Block, &'b [Token]), Fail>>(
    alloc: Global,
    body: &F,
    made: &mut Made,
    line: u32,
    col: u32,
    ts: &'a [Token],
) -> Result<(Stmt, &'a [Token]), Fail>
    requires can { CanRead (F.pre body.now) (length ts.now) }
    requires bodies { ReadsBodies (F.post body.now) }
    ensures read { Runs (λ x. x.1.now) (λ k. run (test_then (Item.block ∷ Item.arms ∷ k)) (kinds ts.now)) result }
    ensures tree { IfOk result (λ x. (t : Token) → Fits (word_at Word.If (at line col)) t
        → ReadsStm (stm_view x.0) made.old made.new (t ∷ ts.now) x.1.now) }
    ensures less { IfOk result (λ x. length x.1.now < length ts.now) }
{
    let mut items = Vec::new(alloc);
    let Ok(()) = items.reserve(1) else {
        return Err(Fail::Memory)
    };
    let (first, mut rest) = arm(alloc, body, made, line, col, ts)?;
    items.push_reserved(first);
    while let Some((_, after)) = eat_word(rest, Word::Else) {
        let Some((sign, after)) = eat_word(after, Word::If) else {
            let (block, behind) = block(alloc, body, made, after)?;
            let arms = Arms::of(items);
            return Ok((
                Stmt::If {
                    line,
                    col,
                    arms,
                    otherwise: Some(block),
                },
                behind,
            ))
        };
        let Ok(()) = items.reserve(1) else {
            return Err(Fail::Memory)
        };
        let (item, after) = arm(alloc, body, made, sign.line, sign.col, after)?;
        items.push_reserved(item);
        rest = after;
    }
    let arms = Arms::of(items);
    Ok((
        Stmt::If {
            line,
            col,
            arms,
            otherwise: None,
        },
        rest,
    ))
}

/// The test and the block of an arm, behind its `if`.
#[cycle(stmt)]
fn arm<'a, F: for<'b> Fn(&mut Made, &'b [Token]) -> Result<(Block, &'b [Token]), Fail>>(
    alloc: Global,
    body: &F,
    made: &mut Made,
    line: u32,
    col: u32,
    ts: &'a [Token],
) -> Result<(Arm, &'a [Token]), Fail>
    requires can { CanRead (F.pre body.now) (length ts.now) }
    requires bodies { ReadsBodies (F.post body.now) }
    ensures read { Runs (λ x. x.1.now) (λ k. run (test_then (Item.block ∷ k)) (kinds ts.now)) result }
    ensures place { IfOk result (λ x. (x.0.line ≡ line) × (x.0.col ≡ col)) }
    ensures tree { IfOk result (λ x. ReadsArm (exp_view x.0.test) x.0.body made.old made.new ts.now x.1.now) }
    ensures less { IfOk result (λ x. length x.1.now < length ts.now) }
{
    let (test, rest) = test(alloc, body, made, ts)?;
    let (block, rest) = block(alloc, body, made, rest)?;
    Ok((
        Arm {
            line,
            col,
            test,
            body: block,
        },
        rest,
    ))
}

/// What stands behind the word `while` that begins a statement.
#[cycle(stmt)]
fn while_loop<'a, F: for<'b> Fn(&mut Made, &'b [Token]) -> Result<(Block, &'b [Token]), Fail>>(
    alloc: Global,
    body: &F,
    made: &mut Made,
    line: u32,
    col: u32,
    ts: &'a [Token],
) -> Result<(Stmt, &'a [Token]), Fail>
    requires can { CanRead (F.pre body.now) (length ts.now) }
    requires bodies { ReadsBodies (F.post body.now) }
    ensures read { Runs (λ x. x.1.now) (λ k. run (test_then (Item.block ∷ k)) (kinds ts.now)) result }
    ensures tree { IfOk result (λ x. (t : Token) → Fits (word_at Word.While (at line col)) t
        → ReadsStm (stm_view x.0) made.old made.new (t ∷ ts.now) x.1.now) }
    ensures less { IfOk result (λ x. length x.1.now < length ts.now) }
{
    let (test, rest) = test(alloc, body, made, ts)?;
    let (block, rest) = block(alloc, body, made, rest)?;
    Ok((
        Stmt::While {
            line,
            col,
            test,
            body: block,
        },
        rest,
    ))
}

/// What stands behind the word `do`.
#[cycle(stmt)]
fn do_loop<'a, F: for<'b> Fn(&mut Made, &'b [Token]) -> Result<(Block, &'b [Token]), Fail>>(
    alloc: Global,
    body: &F,
    made: &mut Made,
    line: u32,
    col: u32,
    ts: &'a [Token],
) -> Result<(Stmt, &'a [Token]), Fail>
    requires can { CanRead (F.pre body.now) (length ts.now) }
    requires bodies { ReadsBodies (F.post body.now) }
    ensures read { Runs (λ x. x.1.now) (λ k. run (Item.block ∷ Item.word Word.While ∷ test_then (Item.sign Sign.Semicolon ∷ k)) (kinds ts.now))
        result }
    ensures tree { IfOk result (λ x. (t : Token) → Fits (word_at Word.Do (at line col)) t
        → ReadsStm (stm_view x.0) made.old made.new (t ∷ ts.now) x.1.now) }
    ensures less { IfOk result (λ x. length x.1.now < length ts.now) }
{
    let (block, rest) = block(alloc, body, made, ts)?;
    let rest = want_word(rest, Word::While)?;
    let (test, rest) = test(alloc, body, made, rest)?;
    let rest = want(rest, Sign::Semicolon)?;
    Ok((
        Stmt::Do {
            line,
            col,
            body: block,
            test,
        },
        rest,
    ))
}

/// What stands behind the word `for`.
#[cycle(stmt)]
fn for_loop<'a, F: for<'b> Fn(&mut Made, &'b [Token]) -> Result<(Block, &'b [Token]), Fail>>(
    alloc: Global,
    body: &F,
    made: &mut Made,
    line: u32,
    col: u32,
    ts: &'a [Token],
) -> Result<(Stmt, &'a [Token]), Fail>
    requires can { CanRead (F.pre body.now) (length ts.now) }
    requires bodies { ReadsBodies (F.post body.now) }
    ensures read { Runs (λ x. x.1.now) (λ k. run
        (Item.sign Sign.OpenRound ∷ Item.name ∷ Item.word Word.In ∷ Item.level Level.Either ∷ Item.sign Sign.CloseRound ∷ Item.block ∷ k)
        (kinds ts.now)) result }
    ensures tree { IfOk result (λ x. (t : Token) → Fits (word_at Word.For (at line col)) t
        → ReadsStm (stm_view x.0) made.old made.new (t ∷ ts.now) x.1.now) }
    ensures less { IfOk result (λ x. length x.1.now < length ts.now) }
{
    let ((name, list), rest) = each_of(alloc, body, made, ts)?;
    let (block, rest) = block(alloc, body, made, rest)?;
    Ok((
        Stmt::For {
            line,
            col,
            name,
            list,
            body: block,
        },
        rest,
    ))
}

/// The statements up to the end of their block.
#[cycle(stmt)]
fn stmts<'a, F: for<'b> Fn(&mut Made, &'b [Token]) -> Result<(Block, &'b [Token]), Fail>>(
    alloc: Global,
    body: &F,
    made: &mut Made,
    ts: &'a [Token],
) -> Result<(Block, &'a [Token]), Fail>
    requires can { CanRead (F.pre body.now) (length ts.now) }
    requires bodies { ReadsBodies (F.post body.now) }
    ensures read { Goes (λ x k. run (Item.sign Sign.CloseCurly ∷ k) (kinds x.1.now))
        (λ k. run (Item.stmts ∷ Item.sign Sign.CloseCurly ∷ k) (kinds ts.now)) result }
    ensures tree { IfOk result (λ x. ReadsStms x.0 made.old made.new ts.now x.1.now) }
    ensures less { IfOk result (λ x. length x.1.now ≤ length ts.now) }
{
    let mut items = Vec::new(alloc);
    let mut rest = ts;
    while !stands(rest, Sign::CloseCurly) {
        let Ok(()) = items.reserve(1) else {
            return Err(Fail::Memory)
        };
        let (item, after) = stmt(alloc, body, made, rest)?;
        items.push_reserved(item);
        rest = after;
    }
    Ok((Block::of(items), rest))
}

/// A block.
#[cycle(stmt)]
pub fn block<'a, F: for<'b> Fn(&mut Made, &'b [Token]) -> Result<(Block, &'b [Token]), Fail>>(
    alloc: Global,
    body: &F,
    made: &mut Made,
    ts: &'a [Token],
) -> Result<(Block, &'a [Token]), Fail>
    requires can { CanRead (F.pre body.now) (length ts.now) }
    requires bodies { ReadsBodies (F.post body.now) }
    ensures read { Runs (λ x. x.1.now) (λ k. run (Item.block ∷ k) (kinds ts.now)) result }
    ensures tree { IfOk result (λ x. ReadsBlock x.0 made.old made.new ts.now x.1.now) }
    ensures less { IfOk result (λ x. length x.1.now < length ts.now) }
{
    let rest = want(ts, Sign::OpenCurly)?;
    let (block, rest) = stmts(alloc, body, made, rest)?;
    let rest = want(rest, Sign::CloseCurly)?;
    Ok((block, rest))
}
