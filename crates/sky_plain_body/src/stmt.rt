// What bodies, blocks and statements do. The functions call each other down the tree; statements in turn
// and the turns of a loop are loops.

ghost use Rattle.std.specs.Prelude.{◌≡◌, ◌≤◌, ◌+◌, suc, IfOk};
ghost use Rattle.sky_base.specs.Kept.{Kept};
ghost use Rattle.sky_base.specs.Res.{visits};
ghost use Rattle.sky_base.specs.StmtView.{stm_view, return_view, arms_view, else_view};
ghost use Rattle.sky_base.specs.Tree.{Stm, nodes, stm_nodes, block_nodes, arms_nodes, else_nodes, script_nodes};
ghost use Rattle.sky_base.specs.TreeView.{at, at as place, exp_view};
ghost use Rattle.sky_base.specs.View.{view};
ghost use Rattle.sky_base_forms.specs.GroundView.{body_on, exp_on, stm_on, stms_on, arms_on, other_on};
ghost use Rattle.sky_base_scope.specs.Plain.{turns, repeats, each_of};
ghost use Rattle.sky_plain_expr.specs.Runs.{CanRun, RunsBody};
ghost use Rattle.sky_base_scope.specs.RunView.{Flows, KeptVals, KeptPairs, KeptFlow};

use sky_base::fault::FaultKind;
use sky_base::stmt::{Arm, Block, Stmt};
use sky_base::text::Txt;
use sky_base::tree::Expr;
use sky_base::value::{Pairs, Vals, Value};
use sky_base_forms::forms::decide;
use sky_base_forms::ground::Ground;
use sky_base_known::rows::Rows;
use sky_base_scope::cut::{Cut, Flow, fault};
use sky_base_scope::funs::code_of;
use sky_base_scope::state::{MOST_VISITS, State};
use sky_plain_expr::expr::expr;

/// Runs the body of the function of a name on what it captured and on its arguments, where so many bodies may still be opened, this one
/// included.
#[tactic(auto, using(sky_plain_expr::proofs::RunRules::body_rules))]
pub fn body(
    ground: &Ground,
    rows: &mut Rows,
    state: &mut State,
    bodies: u32,
    name: &Txt,
    caught: &Pairs,
    args: &Vals,
    line: u32,
    col: u32,
) -> Result<Flow, Cut>
    requires caught { KeptPairs caught.now }
    requires args { KeptVals args.now }
    ensures answer { Flows result rows.new state.new (body_on ground.now bodies name.now caught.now args.now (at line col) rows.old state.old.count) }
    ensures kept { IfOk result KeptFlow }
{
    if bodies == 0 {
        return Err(fault(FaultKind::TooDeep, line, col));
    }
    let Some(code) = code_of(ground.script, name) else {
        return Err(fault(FaultKind::BadKind, line, col));
    };
    state.bind(caught, code.params, args)?;
    let left = bodies - 1;
    let run = move |rows: &mut Rows, state: &mut State, name: &Txt, caught: &Pairs, args: &Vals, line: u32, col: u32| -> Result<
        Flow,
        Cut,
    >
        requires caught { KeptPairs caught.now }
        requires args { KeptVals args.now }
        ensures answer { Flows result rows.new state.new
            (body_on ground.entry.now left name.now caught.now args.now (at line col) rows.old state.old.count) }
        ensures kept { IfOk result KeptFlow }
    { body(ground, rows, state, left, name, caught, args, line, col) };
    block(ground, rows, state, left, &run, code.block)
}

/// Runs the statements of a block.
#[cycle(stms)]
#[tactic(auto, using(sky_plain_expr::proofs::RunRules::stm_rules))]
fn block<F: Fn(&mut Rows, &mut State, &Txt, &Pairs, &Vals, u32, u32) -> Result<Flow, Cut>>(
    ground: &Ground,
    rows: &mut Rows,
    state: &mut State,
    bodies: u32,
    run: &F,
    b: &Block,
) -> Result<Flow, Cut>
    requires can { CanRun (F.pre run.now) }
    requires runs { RunsBody (F.post run.now) ground.now bodies }
    ensures answer { Flows result rows.new state.new (stms_on ground.now bodies b.now rows.old state.old) }
    ensures kept { IfOk result KeptFlow }
{
    for s in b.as_slice() {
        if let Flow::Returned(v) = stmt(ground, rows, state, bodies, run, s)? {
            return Ok(Flow::Returned(v));
        }
    }
    Ok(Flow::Goes)
}

/// Runs a statement.
#[cycle(stms)]
#[tactic(auto, using(sky_plain_expr::proofs::RunRules::stm_rules))]
fn stmt<F: Fn(&mut Rows, &mut State, &Txt, &Pairs, &Vals, u32, u32) -> Result<Flow, Cut>>(
    ground: &Ground,
    rows: &mut Rows,
    state: &mut State,
    bodies: u32,
    run: &F,
    s: &Stmt,
) -> Result<Flow, Cut>
    requires can { CanRun (F.pre run.now) }
    requires runs { RunsBody (F.post run.now) ground.now bodies }
    ensures answer { Flows result rows.new state.new (stm_on ground.now bodies (stm_view s.now) rows.old state.old) }
    ensures kept { IfOk result KeptFlow }
{
    match s {
        Stmt::Set {
            name,
            line,
            col,
            value,
        } => set_of(ground, rows, state, bodies, run, name, *line, *col, value),
        Stmt::Add {
            name,
            name_line,
            name_col,
            line,
            col,
            value,
        } => add_of(
            ground, rows, state, bodies, run, name, *name_line, *name_col, *line, *col, value,
        ),
        Stmt::Put {
            name,
            name_line,
            name_col,
            line,
            col,
            at,
            value,
        } => put_of(
            ground, rows, state, bodies, run, name, *name_line, *name_col, *line, *col, at, value,
        ),
        Stmt::Return { line, col, value } => {
            return_of(ground, rows, state, bodies, run, *line, *col, value)
        }
        Stmt::If {
            line,
            col,
            arms: of,
            otherwise,
        } => {
            state.visit(*line, *col)?;
            arms(ground, rows, state, bodies, run, of.as_slice(), otherwise)
        }
        Stmt::While {
            line,
            col,
            test,
            body,
        } => {
            state.visit(*line, *col)?;
            while_loop(ground, rows, state, bodies, run, test, body, *line, *col)
        }
        Stmt::Do {
            line,
            col,
            body,
            test,
        } => {
            state.visit(*line, *col)?;
            do_loop(ground, rows, state, bodies, run, body, test, *line, *col)
        }
        Stmt::For {
            line,
            col,
            name,
            list,
            body,
        } => {
            state.visit(*line, *col)?;
            let v = expr(ground, rows, state, bodies, run, list)?;
            for_loop(
                ground, rows, state, bodies, run, name, &v, body, *line, *col,
            )
        }
        Stmt::Just { line, col, inner } => just_of(
            ground, rows, state, bodies, run, *line, *col, inner,
        ),
    }
}

/// Runs `x = e;`.
#[tactic(auto, using(sky_plain_expr::proofs::RunRules::stm_rules))]
fn set_of<F: Fn(&mut Rows, &mut State, &Txt, &Pairs, &Vals, u32, u32) -> Result<Flow, Cut>>(
    ground: &Ground,
    rows: &mut Rows,
    state: &mut State,
    bodies: u32,
    run: &F,
    name: &Txt,
    line: u32,
    col: u32,
    value: &Expr,
) -> Result<Flow, Cut>
    requires can { CanRun (F.pre run.now) }
    requires runs { RunsBody (F.post run.now) ground.now bodies }
    ensures answer { Flows result rows.new state.new
        (stm_on ground.now bodies (Stm.set name.now (place line col) (exp_view value.now)) rows.old state.old) }
    ensures kept { IfOk result KeptFlow }
{
    state.visit(line, col)?;
    let v = expr(ground, rows, state, bodies, run, value)?;
    state.set(name, v)?;
    Ok(Flow::Goes)
}

/// Runs `x += e;`.
#[tactic(auto, using(sky_plain_expr::proofs::RunRules::stm_rules))]
fn add_of<F: Fn(&mut Rows, &mut State, &Txt, &Pairs, &Vals, u32, u32) -> Result<Flow, Cut>>(
    ground: &Ground,
    rows: &mut Rows,
    state: &mut State,
    bodies: u32,
    run: &F,
    name: &Txt,
    name_line: u32,
    name_col: u32,
    line: u32,
    col: u32,
    value: &Expr,
) -> Result<Flow, Cut>
    requires can { CanRun (F.pre run.now) }
    requires runs { RunsBody (F.post run.now) ground.now bodies }
    ensures answer { Flows result rows.new state.new
        (stm_on ground.now bodies (Stm.add name.now (place name_line name_col) (place line col) (exp_view value.now)) rows.old state.old) }
    ensures kept { IfOk result KeptFlow }
{
    state.visit(line, col)?;
    let e = expr(ground, rows, state, bodies, run, value)?;
    state.grow(ground.alloc, name, name_line, name_col, line, col, e)?;
    Ok(Flow::Goes)
}

/// Runs `x[i] = e;`.
#[tactic(auto, using(sky_plain_expr::proofs::RunRules::stm_rules))]
fn put_of<F: Fn(&mut Rows, &mut State, &Txt, &Pairs, &Vals, u32, u32) -> Result<Flow, Cut>>(
    ground: &Ground,
    rows: &mut Rows,
    state: &mut State,
    bodies: u32,
    run: &F,
    name: &Txt,
    name_line: u32,
    name_col: u32,
    line: u32,
    col: u32,
    at: &Expr,
    value: &Expr,
) -> Result<Flow, Cut>
    requires can { CanRun (F.pre run.now) }
    requires runs { RunsBody (F.post run.now) ground.now bodies }
    ensures answer { Flows result rows.new state.new
        (stm_on ground.now bodies (Stm.put name.now (place name_line name_col) (place line col) (exp_view at.now) (exp_view value.now)) rows.old
        state.old) }
    ensures kept { IfOk result KeptFlow }
{
    state.visit(line, col)?;
    let i = expr(ground, rows, state, bodies, run, at)?;
    let e = expr(ground, rows, state, bodies, run, value)?;
    state.put(name, name_line, name_col, line, col, &i, e)?;
    Ok(Flow::Goes)
}

/// Runs a `return`.
#[tactic(auto, using(sky_plain_expr::proofs::RunRules::stm_rules))]
fn return_of<F: Fn(&mut Rows, &mut State, &Txt, &Pairs, &Vals, u32, u32) -> Result<Flow, Cut>>(
    ground: &Ground,
    rows: &mut Rows,
    state: &mut State,
    bodies: u32,
    run: &F,
    line: u32,
    col: u32,
    value: &Option<Expr>,
) -> Result<Flow, Cut>
    requires can { CanRun (F.pre run.now) }
    requires runs { RunsBody (F.post run.now) ground.now bodies }
    ensures answer { Flows result rows.new state.new (stm_on ground.now bodies (return_view value.now (place line col)) rows.old state.old) }
    ensures kept { IfOk result KeptFlow }
{
    state.visit(line, col)?;
    match value {
        Some(value) => {
            let v = expr(ground, rows, state, bodies, run, value)?;
            Ok(Flow::Returned(v))
        }
        None => Ok(Flow::Returned(Value::Null)),
    }
}

/// Runs an expression as a statement.
#[tactic(auto, using(sky_plain_expr::proofs::RunRules::stm_rules))]
fn just_of<F: Fn(&mut Rows, &mut State, &Txt, &Pairs, &Vals, u32, u32) -> Result<Flow, Cut>>(
    ground: &Ground,
    rows: &mut Rows,
    state: &mut State,
    bodies: u32,
    run: &F,
    line: u32,
    col: u32,
    inner: &Expr,
) -> Result<Flow, Cut>
    requires can { CanRun (F.pre run.now) }
    requires runs { RunsBody (F.post run.now) ground.now bodies }
    ensures answer { Flows result rows.new state.new (stm_on ground.now bodies (Stm.just (place line col) (exp_view inner.now)) rows.old state.old) }
    ensures kept { IfOk result KeptFlow }
{
    state.visit(line, col)?;
    expr(ground, rows, state, bodies, run, inner)?;
    Ok(Flow::Goes)
}

/// Runs the block of the first arm whose test holds, else the last block.
#[cycle(stms)]
#[tactic(auto, using(sky_plain_expr::proofs::RunRules::stm_rules))]
fn arms<F: Fn(&mut Rows, &mut State, &Txt, &Pairs, &Vals, u32, u32) -> Result<Flow, Cut>>(
    ground: &Ground,
    rows: &mut Rows,
    state: &mut State,
    bodies: u32,
    run: &F,
    of: &[Arm],
    otherwise: &Option<Block>,
) -> Result<Flow, Cut>
    requires can { CanRun (F.pre run.now) }
    requires runs { RunsBody (F.post run.now) ground.now bodies }
    ensures answer { Flows result rows.new state.new
        (arms_on ground.now bodies (arms_view of.now) (other_on ground.now bodies (else_view otherwise.now)) rows.old state.old) }
    ensures kept { IfOk result KeptFlow }
{
    for arm in of {
        let v = expr(ground, rows, state, bodies, run, &arm.test)?;
        if decide(&v, arm.line, arm.col)? {
            return block(ground, rows, state, bodies, run, &arm.body);
        }
    }
    match otherwise {
        Some(b) => block(ground, rows, state, bodies, run, b),
        None => Ok(Flow::Goes),
    }
}

/// Runs a `while`, visited before.
#[cycle(stms)]
#[tactic(auto, using(sky_plain_expr::proofs::RunRules::stm_rules))]
fn while_loop<F: Fn(&mut Rows, &mut State, &Txt, &Pairs, &Vals, u32, u32) -> Result<Flow, Cut>>(
    ground: &Ground,
    rows: &mut Rows,
    state: &mut State,
    bodies: u32,
    run: &F,
    test: &Expr,
    body: &Block,
    line: u32,
    col: u32,
) -> Result<Flow, Cut>
    requires can { CanRun (F.pre run.now) }
    requires runs { RunsBody (F.post run.now) ground.now bodies }
    ensures answer { Flows result rows.new state.new
        (turns (suc visits) (at line col) (exp_on ground.now bodies (exp_view test.now)) (stms_on ground.now bodies body.now) rows.old
        state.old) }
    ensures kept { IfOk result KeptFlow }
{
    for _turn in 0..MOST_VISITS + 1 {
        let v = expr(ground, rows, state, bodies, run, test)?;
        if !decide(&v, line, col)? {
            return Ok(Flow::Goes);
        }
        if let Flow::Returned(v) = block(ground, rows, state, bodies, run, body)? {
            return Ok(Flow::Returned(v));
        }
    }
    Err(fault(FaultKind::TooLong, line, col))
}

/// Runs a `do`, visited before.
#[cycle(stms)]
#[tactic(auto, using(sky_plain_expr::proofs::RunRules::stm_rules))]
fn do_loop<F: Fn(&mut Rows, &mut State, &Txt, &Pairs, &Vals, u32, u32) -> Result<Flow, Cut>>(
    ground: &Ground,
    rows: &mut Rows,
    state: &mut State,
    bodies: u32,
    run: &F,
    body: &Block,
    test: &Expr,
    line: u32,
    col: u32,
) -> Result<Flow, Cut>
    requires can { CanRun (F.pre run.now) }
    requires runs { RunsBody (F.post run.now) ground.now bodies }
    ensures answer { Flows result rows.new state.new
        (repeats (suc visits) (at line col) (stms_on ground.now bodies body.now) (exp_on ground.now bodies (exp_view test.now)) rows.old
        state.old) }
    ensures kept { IfOk result KeptFlow }
{
    for _turn in 0..MOST_VISITS + 1 {
        if let Flow::Returned(v) = block(ground, rows, state, bodies, run, body)? {
            return Ok(Flow::Returned(v));
        }
        let v = expr(ground, rows, state, bodies, run, test)?;
        if !decide(&v, line, col)? {
            return Ok(Flow::Goes);
        }
    }
    Err(fault(FaultKind::TooLong, line, col))
}

/// Runs a `for` over the elements of a list, visited before.
#[cycle(stms)]
#[tactic(auto, using(sky_plain_expr::proofs::RunRules::stm_rules))]
fn for_loop<F: Fn(&mut Rows, &mut State, &Txt, &Pairs, &Vals, u32, u32) -> Result<Flow, Cut>>(
    ground: &Ground,
    rows: &mut Rows,
    state: &mut State,
    bodies: u32,
    run: &F,
    name: &Txt,
    list: &Value,
    body: &Block,
    line: u32,
    col: u32,
) -> Result<Flow, Cut>
    requires can { CanRun (F.pre run.now) }
    requires runs { RunsBody (F.post run.now) ground.now bodies }
    requires kept { Kept (view list.now) }
    ensures answer { Flows result rows.new state.new
        (each_of (view list.now) (at line col) name.now (stms_on ground.now bodies body.now) rows.old state.old) }
    ensures kept { IfOk result KeptFlow }
{
    let Value::List(vs) = list else {
        return Err(fault(FaultKind::BadKind, line, col));
    };
    for v in vs.as_slice() {
        state.visit(line, col)?;
        state.set(name, v.copy()?)?;
        if let Flow::Returned(v) = block(ground, rows, state, bodies, run, body)? {
            return Ok(Flow::Returned(v));
        }
    }
    Ok(Flow::Goes)
}
