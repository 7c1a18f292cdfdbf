// Scripts as a whole: functions and statements in any order. Named functions go into one list and the
// other statements, in order, into the main body; the anonymous functions stand behind the named ones.

ghost use Rattle.std.specs.Prelude.{◌≡◌, ◌<◌, ◌≤◌, ◌-◌, ◌^◌, ◌∷◌, [], List, Some, None, true, false, length, IfOk, IfSome, IfNone};
ghost use Rattle.sky_base.specs.Tree.{Place, script_nodes};
ghost use Rattle.sky_base.specs.TreeView.{at};
ghost use Rattle.sky_base.specs.ScriptView.{fun_view};
ghost use Rattle.sky_parse_grammar.specs.Lifted.{text_cmp};
ghost use Rattle.sky_parse_grammar.specs.Machine.{Item, run, kinds};
ghost use Rattle.sky_parse_grammar.specs.Names.{same_names};
ghost use Rattle.sky_parse_grammar.specs.Signs.{at_sign, is_word};
ghost use Rattle.sky_parse_grammar.specs.Nesting.{too_nested};
ghost use Rattle.sky_parse_grammar.specs.Tops.{Top, Spells, script_of};
ghost use Rattle.sky_parse_expr.specs.Runs.{Runs, Goes};
ghost use Rattle.sky_parse.specs.Scripts.{IsRead, no_function, ReadsFun, SoFar};
ghost use Rattle.sky_parse.specs.Parsed.{Gives, IsMade, IsSpelled, IsTwice, IsValid, Named, Nested, Refused, place_at};
ghost use Rattle.std.specs.BTreeSet.{insert_key};

use crate::body::{top_stmt, whole_block};
use crate::brackets::too_nested;
use sky_base::script::{FunDef, FunDefs, Script, Texts};
use sky_base::stmt::{Block, Stmt};
use sky_parse_expr::function::params;
use sky_parse_expr::look::{Fail, eat_word, stands, want, want_name};
use sky_parse_held::made::Made;
use sky_parse_held::names::{Known, noted, parameters};
use sky_text::token::{Sign, Token, Word};
use std::alloc::Global;

/// What was read of a script so far: its named functions, its statements, the names of those functions,
/// and what is held of all.
#[derive(Drop)]
pub(crate) struct Read {
    pub(crate) funs: Vec<FunDef>,
    pub(crate) main: Vec<Stmt>,
    pub(crate) known: Known,
    pub(crate) made: Made,
}

/// Why tokens are no script. `TooNested` is tried first, `SameName` last; each place is the line and the
/// column of a token, or for `NoSentence` also the end of the text.
#[derive(Clone, Copy, PartialEq, Eq, Debug)]
pub enum ParseRefusal {
    /// At this opening sign 64 brackets are open already.
    TooNested { line: u32, col: u32 },
    /// No sentence of the grammar goes on with this token, or ends here.
    NoSentence { line: u32, col: u32 },
    /// This name of a function or a parameter stands twice.
    SameName { line: u32, col: u32 },
    /// Want of memory.
    Memory,
}

/// What stands behind the word of a named function.
fn named_function<'a>(
    alloc: Global,
    known: &mut Known,
    made: &mut Made,
    ts: &'a [Token],
) -> Result<(FunDef, &'a [Token]), Fail>
    ensures read { Runs (λ x. x.1.now) (λ k. run (Item.name ∷ Item.sign Sign.OpenRound ∷ Item.params ∷ Item.block ∷ k) (kinds ts.now)) result }
    ensures tree { IfOk result (λ x. ReadsFun (fun_view x.0) known.old made.old made.new ts.now x.1.now) }
    ensures known { IfOk result (λ x. known.new ≡ insert_key text_cmp known.old x.0.name) }
    ensures less { IfOk result (λ x. length x.1.now < length ts.now) }
{
    let (name, line, col, rest) = want_name(ts)?;
    let rest = want(rest, Sign::OpenRound)?;
    let (params, rest) = params(alloc, rest)?;
    let Ok(twice) = known.put(&name) else {
        return Err(Fail::Memory)
    };
    let Ok((params, same)) = parameters(alloc, &params) else {
        return Err(Fail::Memory)
    };
    made.twice(noted(None, twice, line, col));
    made.twice(same);
    let (body, rest) = whole_block(alloc, made, rest)?;
    Ok((
        FunDef {
            name,
            params,
            body,
            line,
            col,
            uses: Texts::of(Vec::new(alloc)),
        },
        rest,
    ))
}

/// The word of a named function, if one stands first, and what follows: behind the word of an anonymous
/// function, which begins a statement, stands a bracket.
fn begin_named(ts: &[Token]) -> Option<&[Token]>
    ensures some { IfSome result (λ x. (t : Token) × (ts.now ≡ t ∷ x.now) × (is_word Word.Function t.kind ≡ true)
        × (at_sign Sign.OpenRound x.now ≡ false)) }
    ensures none { IfNone result (no_function ts.now ≡ true) }
{
    let (_, after) = eat_word(ts, Word::Function)?;
    if stands(after, Sign::OpenRound) {
        return None;
    }
    Some(after)
}

/// A function or a statement, put behind those that were read.
fn top<'a>(alloc: Global, read: &mut Read, ts: &'a [Token]) -> Result<&'a [Token], Fail>
    requires { 0 < length ts.now }
    ensures read { Goes (λ x k. run (Item.tops ∷ k) (kinds x.now)) (λ k. run (Item.tops ∷ k) (kinds ts.now)) result }
    ensures tree { IfOk result (λ x. (start : List Token) → SoFar read.old start ts.now → SoFar read.new start x.now) }
    ensures less { IfOk result (λ x. length x.now < length ts.now) }
{
    let Ok(()) = read.funs.reserve(1) else {
        return Err(Fail::Memory)
    };
    let Ok(()) = read.main.reserve(1) else {
        return Err(Fail::Memory)
    };
    if let Some(after) = begin_named(ts) {
        let (fun, rest) = named_function(alloc, &mut read.known, &mut read.made, after)?;
        read.funs.push_reserved(fun);
        return Ok(rest);
    }
    let (item, rest) = top_stmt(alloc, &mut read.made, ts)?;
    read.main.push_reserved(item);
    Ok(rest)
}

/// All functions and statements.
fn tops(alloc: Global, ts: &[Token]) -> Result<Read, Fail>
    ensures read { Goes (λ x k. run k []) (λ k. run (Item.tops ∷ k) (kinds ts.now)) result }
    ensures tree { IfOk result (λ r. (tops : List Top) × IsRead r tops × Spells tops ts.now) }
{
    let mut read = Read {
        funs: Vec::new(alloc),
        main: Vec::new(alloc),
        known: Known::new(alloc),
        made: Made::new(alloc),
    };
    let mut rest = ts;
    while !rest.is_empty() {
        rest = top(alloc, &mut read, rest)?;
    }
    Ok(read)
}

/// The place of the token at which so many are left, or the end.
fn place(ts: &[Token], left: usize, end: (u32, u32)) -> (u32, u32)
    ensures { at result.0 result.1 ≡ place_at ts.now (length ts.now - left) (at end.0 end.1) }
{
    match ts.get(ts.len().saturating_sub(left)) {
        Some(token) => (token.line, token.col),
        None => end,
    }
}

/// The script of what was read: its named functions and behind them the anonymous ones, unless a name
/// stands twice.
fn script(read: Read, keys: Texts) -> Result<Script, ParseRefusal>
    requires { (tops : List Top) × IsRead read tops × (script_nodes (script_of keys tops) < 2 ^ 32) }
    ensures { (tops : List Top) → IsRead read tops → IsMade keys tops result }
{
    let Read {
        mut funs,
        main,
        known: _,
        made,
    } = read;
    let (mut anonymous, same) = made.into_parts();
    if let Some((line, col)) = same {
        return Err(ParseRefusal::SameName { line, col });
    }
    match funs.append(&mut anonymous) {
        Ok(()) => Ok(Script::new(FunDefs::of(funs), Block::of(main), keys)),
        Err(_) => Err(ParseRefusal::Memory),
    }
}

/// The script that the tokens spell. `end` is the line and column of the end of the text, and `keys` are
/// the names of the inputs, which the script keeps.
pub fn parse(
    alloc: Global,
    tokens: &[Token],
    end: (u32, u32),
    keys: Texts,
) -> Result<Script, ParseRefusal>
    requires { length tokens.now ≤ 1048576 }
    // A valid script is answered as what it is, but for want of memory.
    ensures valid { (tops : List Top) → IsValid tops tokens.now → Gives keys tops result }
    // Its functions and statements are trees of the grammar and spell the tokens, places included.
    ensures spelled { IfOk result (λ script. IsSpelled keys tokens.now script) }
    // A name that stands twice is refused where functions and statements spell the tokens, exactly there.
    ensures named { Named tokens.now result }
    // Where they do, no bracket is one too many and a name stands twice, that is the answer, but for want of memory.
    ensures twice { (tops : List Top) (p : Place) → Spells tops tokens.now → too_nested 0 tokens.now ≡ None → same_names [] tops ≡ Some p
        → IsTwice p result }
    // Where no sentence goes on, no script spells the tokens, and the place is that of the first token with
    // which they begin none, or else the end.
    ensures refused { Refused tokens.now (at end.0 end.1) result }
    // Brackets that are nested too deep are refused, before all else and exactly where they are.
    ensures nested { Nested tokens.now result }
{
    if let Some((line, col)) = too_nested(tokens) {
        return Err(ParseRefusal::TooNested { line, col });
    }
    match tops(alloc, tokens) {
        Ok(read) => script(read, keys),
        Err(Fail::Memory) => Err(ParseRefusal::Memory),
        Err(Fail::Stuck(left)) => {
            let (line, col) = place(tokens, left, end);
            Err(ParseRefusal::NoSentence { line, col })
        }
    }
}
