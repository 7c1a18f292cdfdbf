// The value of an expression. The functions call each other down the tree, and at a call a body is run;
// chains and signs are loops. A form gets the values of its parts first, and is then visited.

ghost use Rattle.std.specs.Prelude.{◌≡◌, ◌≤◌, IfOk};
ghost use Rattle.sky_base.specs.Kept.{Kept};
ghost use Rattle.sky_base.specs.Tree.{Exp, Oper, Form, nodes, exps_nodes, links_nodes, ands_nodes, steps_nodes, script_nodes};
ghost use Rattle.sky_base.specs.Tree as tree;
ghost use Rattle.sky_base.specs.TreeView.{at, one, two, three, order_view, signs_view, exp_view, links_view, ands_view, steps_view, step_view};
ghost use Rattle.sky_base.specs.TreeView.{step_nodes, arith_view};
ghost use Rattle.sky_base.specs.Val.{no_vals};
ghost use Rattle.sky_base.specs.View.{view};
ghost use Rattle.sky_base_forms.specs.GroundView.{exp_on, values_on, links_on, ands_on, steps_on, opened_on};
ghost use Rattle.sky_plain_expr.specs.Runs.{CanRun, RunsBody};
ghost use Rattle.sky_base_scope.specs.RunView.{Comes, Lists, KeptVals, junction};

use sky_base::op::index;
use sky_base::text::Txt;
use sky_base::tree::{Cmp, Expr, Exprs, Join, Joins, Link, Links, SignAt, Step, Steps, Sub};
use sky_base::value::{Pairs, Vals, Value};
use sky_base_forms::forms::{
    callee, decide, exec, function, give, input, named, signs, spawn, spawn_exec,
};
use sky_base_forms::given::{
    compared_given, dict_given, has_given, keys_given, len_given, list_given, literal_given,
    range_given,
};
use sky_base_forms::ground::Ground;
use sky_base_known::rows::Rows;
use sky_base_scope::cut::{Cut, Flow};
use sky_base_scope::ops::apply;
use sky_base_scope::state::State;

/// The value of an expression.
#[cycle(exp)]
#[tactic(auto, using(crate::proofs::RunRules::exp_rules))]
pub fn expr<F: Fn(&mut Rows, &mut State, &Txt, &Pairs, &Vals, u32, u32) -> Result<Flow, Cut>>(
    ground: &Ground,
    rows: &mut Rows,
    state: &mut State,
    bodies: u32,
    run: &F,
    e: &Expr,
) -> Result<Value, Cut>
    requires can { CanRun (F.pre run.now) }
    requires runs { RunsBody (F.post run.now) ground.now bodies }
    ensures answer { Comes result rows.new state.new (exp_on ground.now bodies (exp_view e.now) rows.old state.old) }
    ensures kept { IfOk result (λ v. Kept (view v)) }
{
    match e {
        Expr::Literal { value, line, col } => literal_given(state, value, *line, *col),
        Expr::Name { name, line, col } => named(ground, state, name, *line, *col),
        Expr::Function { name, line, col } => function(ground, state, name, *line, *col),
        Expr::Parens { inner } => expr(ground, rows, state, bodies, run, inner.get()),
        Expr::List { items, line, col } => list_of(
            ground, rows, state, bodies, run, items, *line, *col,
        ),
        Expr::Dict { items, line, col } => dict_of(
            ground, rows, state, bodies, run, items, *line, *col,
        ),
        Expr::Chain { first, rest } => chain(ground, rows, state, bodies, run, first, rest),
        Expr::Compare {
            left,
            how,
            line,
            col,
            right,
        } => compare(
            ground, rows, state, bodies, run, left, *how, *line, *col, right,
        ),
        Expr::And { first, rest } => logic(ground, rows, state, bodies, run, false, first, rest),
        Expr::Or { first, rest } => logic(ground, rows, state, bodies, run, true, first, rest),
        Expr::Prefix { signs: of, operand } => prefix(
            ground, rows, state, bodies, run, of, operand,
        ),
        Expr::Postfix { first, rest } => postfix(ground, rows, state, bodies, run, first, rest),
        Expr::Spawn {
            fun,
            args,
            line,
            col,
        } => spawn_of(ground, rows, state, bodies, run, fun, args, *line, *col),
        Expr::SpawnExec {
            executor,
            args,
            outputs,
            line,
            col,
        } => spawn_exec_of(
            ground, rows, state, bodies, run, executor, args, outputs, *line, *col,
        ),
        Expr::Exec {
            executor,
            args,
            outputs,
            line,
            col,
        } => exec_of(
            ground, rows, state, bodies, run, executor, args, outputs, *line, *col,
        ),
        Expr::Ref { key, line, col } => ref_of(ground, rows, state, bodies, run, key, *line, *col),
        Expr::Len { of, line, col } => len_of(ground, rows, state, bodies, run, of, *line, *col),
        Expr::Keys { of, line, col } => keys_of(ground, rows, state, bodies, run, of, *line, *col),
        Expr::Has {
            dict,
            key,
            line,
            col,
        } => has_of(ground, rows, state, bodies, run, dict, key, *line, *col),
        Expr::Range {
            from,
            to,
            line,
            col,
        } => range_of(ground, rows, state, bodies, run, from, to, *line, *col),
    }
}

/// The value of a list's literal.
#[cycle(exp)]
#[tactic(auto, using(crate::proofs::RunRules::exp_rules))]
fn list_of<F: Fn(&mut Rows, &mut State, &Txt, &Pairs, &Vals, u32, u32) -> Result<Flow, Cut>>(
    ground: &Ground,
    rows: &mut Rows,
    state: &mut State,
    bodies: u32,
    run: &F,
    items: &Exprs,
    line: u32,
    col: u32,
) -> Result<Value, Cut>
    requires can { CanRun (F.pre run.now) }
    requires runs { RunsBody (F.post run.now) ground.now bodies }
    ensures answer { Comes result rows.new state.new (exp_on ground.now bodies (Exp.parts Form.list (at line col) items.now) rows.old state.old) }
    ensures kept { IfOk result (λ v. Kept (view v)) }
{
    let vs = values(ground, rows, state, bodies, run, items)?;
    list_given(state, vs, line, col)
}

/// The value of a dictionary's literal.
#[cycle(exp)]
#[tactic(auto, using(crate::proofs::RunRules::exp_rules))]
fn dict_of<F: Fn(&mut Rows, &mut State, &Txt, &Pairs, &Vals, u32, u32) -> Result<Flow, Cut>>(
    ground: &Ground,
    rows: &mut Rows,
    state: &mut State,
    bodies: u32,
    run: &F,
    items: &Exprs,
    line: u32,
    col: u32,
) -> Result<Value, Cut>
    requires can { CanRun (F.pre run.now) }
    requires runs { RunsBody (F.post run.now) ground.now bodies }
    ensures answer { Comes result rows.new state.new (exp_on ground.now bodies (Exp.parts Form.dict (at line col) items.now) rows.old state.old) }
    ensures kept { IfOk result (λ v. Kept (view v)) }
{
    let vs = values(ground, rows, state, bodies, run, items)?;
    dict_given(state, ground.alloc, &vs, line, col)
}

/// The value of a chain of operators.
#[cycle(exp)]
#[tactic(auto, using(crate::proofs::RunRules::exp_rules))]
fn chain<F: Fn(&mut Rows, &mut State, &Txt, &Pairs, &Vals, u32, u32) -> Result<Flow, Cut>>(
    ground: &Ground,
    rows: &mut Rows,
    state: &mut State,
    bodies: u32,
    run: &F,
    first: &Sub,
    rest: &Links,
) -> Result<Value, Cut>
    requires can { CanRun (F.pre run.now) }
    requires runs { RunsBody (F.post run.now) ground.now bodies }
    ensures answer { Comes result rows.new state.new (exp_on ground.now bodies (Exp.chain first.now rest.now) rows.old state.old) }
    ensures kept { IfOk result (λ v. Kept (view v)) }
{
    let v = expr(ground, rows, state, bodies, run, first.get())?;
    links(ground, rows, state, bodies, run, v, rest.as_slice())
}

/// The value of a comparison.
#[cycle(exp)]
#[tactic(auto, using(crate::proofs::RunRules::exp_rules))]
fn compare<F: Fn(&mut Rows, &mut State, &Txt, &Pairs, &Vals, u32, u32) -> Result<Flow, Cut>>(
    ground: &Ground,
    rows: &mut Rows,
    state: &mut State,
    bodies: u32,
    run: &F,
    left: &Sub,
    how: Cmp,
    line: u32,
    col: u32,
    right: &Sub,
) -> Result<Value, Cut>
    requires can { CanRun (F.pre run.now) }
    requires runs { RunsBody (F.post run.now) ground.now bodies }
    ensures answer { Comes result rows.new state.new
        (exp_on ground.now bodies (Exp.chain left.now (tree.link (Oper.compare (order_view how)) (at line col) right.now tree.no_links)) rows.old
        state.old) }
    ensures kept { IfOk result (λ v. Kept (view v)) }
{
    let a = expr(ground, rows, state, bodies, run, left.get())?;
    let b = expr(ground, rows, state, bodies, run, right.get())?;
    compared_given(state, how, &a, &b, line, col)
}

/// The value of a chain of `&&`, or of `||`, which stops at true.
#[cycle(exp)]
#[tactic(auto, using(crate::proofs::RunRules::exp_rules))]
fn logic<F: Fn(&mut Rows, &mut State, &Txt, &Pairs, &Vals, u32, u32) -> Result<Flow, Cut>>(
    ground: &Ground,
    rows: &mut Rows,
    state: &mut State,
    bodies: u32,
    run: &F,
    stop: bool,
    first: &Sub,
    rest: &Joins,
) -> Result<Value, Cut>
    requires can { CanRun (F.pre run.now) }
    requires runs { RunsBody (F.post run.now) ground.now bodies }
    ensures answer { Comes result rows.new state.new (exp_on ground.now bodies (Exp.logic (junction stop) first.now rest.now) rows.old state.old) }
    ensures kept { IfOk result (λ v. Kept (view v)) }
{
    let v = expr(ground, rows, state, bodies, run, first.get())?;
    joins(ground, rows, state, bodies, run, stop, v, rest.as_slice())
}

/// The value of an operand under signs.
#[cycle(exp)]
#[tactic(auto, using(crate::proofs::RunRules::exp_rules))]
fn prefix<F: Fn(&mut Rows, &mut State, &Txt, &Pairs, &Vals, u32, u32) -> Result<Flow, Cut>>(
    ground: &Ground,
    rows: &mut Rows,
    state: &mut State,
    bodies: u32,
    run: &F,
    of: &[SignAt],
    operand: &Sub,
) -> Result<Value, Cut>
    requires can { CanRun (F.pre run.now) }
    requires runs { RunsBody (F.post run.now) ground.now bodies }
    ensures answer { Comes result rows.new state.new (exp_on ground.now bodies (Exp.prefix (signs_view of.now) operand.now) rows.old state.old) }
    ensures kept { IfOk result (λ v. Kept (view v)) }
{
    let v = expr(ground, rows, state, bodies, run, operand.get())?;
    signs(ground, state, of, v)
}

/// The value of an operand with indices and calls.
#[cycle(exp)]
#[tactic(auto, using(crate::proofs::RunRules::exp_rules))]
fn postfix<F: Fn(&mut Rows, &mut State, &Txt, &Pairs, &Vals, u32, u32) -> Result<Flow, Cut>>(
    ground: &Ground,
    rows: &mut Rows,
    state: &mut State,
    bodies: u32,
    run: &F,
    first: &Sub,
    rest: &Steps,
) -> Result<Value, Cut>
    requires can { CanRun (F.pre run.now) }
    requires runs { RunsBody (F.post run.now) ground.now bodies }
    ensures answer { Comes result rows.new state.new (exp_on ground.now bodies (Exp.postfix first.now rest.now) rows.old state.old) }
    ensures kept { IfOk result (λ v. Kept (view v)) }
{
    let v = expr(ground, rows, state, bodies, run, first.get())?;
    steps(ground, rows, state, bodies, run, v, rest.as_slice())
}

/// The reference that `spawn` gives.
#[cycle(exp)]
#[tactic(auto, using(crate::proofs::RunRules::exp_rules))]
fn spawn_of<F: Fn(&mut Rows, &mut State, &Txt, &Pairs, &Vals, u32, u32) -> Result<Flow, Cut>>(
    ground: &Ground,
    rows: &mut Rows,
    state: &mut State,
    bodies: u32,
    run: &F,
    fun: &Sub,
    args: &Sub,
    line: u32,
    col: u32,
) -> Result<Value, Cut>
    requires can { CanRun (F.pre run.now) }
    requires runs { RunsBody (F.post run.now) ground.now bodies }
    ensures answer { Comes result rows.new state.new
        (exp_on ground.now bodies (Exp.parts Form.spawn (at line col) (two fun.now args.now)) rows.old state.old) }
    ensures kept { IfOk result (λ v. Kept (view v)) }
{
    let f = expr(ground, rows, state, bodies, run, fun.get())?;
    let a = expr(ground, rows, state, bodies, run, args.get())?;
    spawn(ground, rows, state, &f, &a, line, col)
}

/// The references that `spawn_exec` gives.
#[cycle(exp)]
#[tactic(auto, using(crate::proofs::RunRules::exp_rules))]
fn spawn_exec_of<F: Fn(&mut Rows, &mut State, &Txt, &Pairs, &Vals, u32, u32) -> Result<Flow, Cut>>(
    ground: &Ground,
    rows: &mut Rows,
    state: &mut State,
    bodies: u32,
    run: &F,
    executor: &Sub,
    args: &Sub,
    outputs: &Sub,
    line: u32,
    col: u32,
) -> Result<Value, Cut>
    requires can { CanRun (F.pre run.now) }
    requires runs { RunsBody (F.post run.now) ground.now bodies }
    ensures answer { Comes result rows.new state.new
        (exp_on ground.now bodies (Exp.parts Form.spawn_exec (at line col) (three executor.now args.now outputs.now)) rows.old state.old) }
    ensures kept { IfOk result (λ v. Kept (view v)) }
{
    let x = expr(ground, rows, state, bodies, run, executor.get())?;
    let a = expr(ground, rows, state, bodies, run, args.get())?;
    let n = expr(ground, rows, state, bodies, run, outputs.get())?;
    spawn_exec(ground, rows, state, &x, &a, &n, line, col)
}

/// The references that `exec` gives.
#[cycle(exp)]
#[tactic(auto, using(crate::proofs::RunRules::exp_rules))]
fn exec_of<F: Fn(&mut Rows, &mut State, &Txt, &Pairs, &Vals, u32, u32) -> Result<Flow, Cut>>(
    ground: &Ground,
    rows: &mut Rows,
    state: &mut State,
    bodies: u32,
    run: &F,
    executor: &Sub,
    args: &Sub,
    outputs: &Sub,
    line: u32,
    col: u32,
) -> Result<Value, Cut>
    requires can { CanRun (F.pre run.now) }
    requires runs { RunsBody (F.post run.now) ground.now bodies }
    ensures answer { Comes result rows.new state.new
        (exp_on ground.now bodies (Exp.parts Form.exec (at line col) (three executor.now args.now outputs.now)) rows.old state.old) }
    ensures kept { IfOk result (λ v. Kept (view v)) }
{
    let x = expr(ground, rows, state, bodies, run, executor.get())?;
    let a = expr(ground, rows, state, bodies, run, args.get())?;
    let n = expr(ground, rows, state, bodies, run, outputs.get())?;
    exec(ground, rows, state, &x, &a, &n, line, col)
}

/// The reference to an input.
#[cycle(exp)]
#[tactic(auto, using(crate::proofs::RunRules::exp_rules))]
fn ref_of<F: Fn(&mut Rows, &mut State, &Txt, &Pairs, &Vals, u32, u32) -> Result<Flow, Cut>>(
    ground: &Ground,
    rows: &mut Rows,
    state: &mut State,
    bodies: u32,
    run: &F,
    key: &Sub,
    line: u32,
    col: u32,
) -> Result<Value, Cut>
    requires can { CanRun (F.pre run.now) }
    requires runs { RunsBody (F.post run.now) ground.now bodies }
    ensures answer { Comes result rows.new state.new (exp_on ground.now bodies (Exp.parts Form.ref (at line col) (one key.now)) rows.old state.old) }
    ensures kept { IfOk result (λ v. Kept (view v)) }
{
    let k = expr(ground, rows, state, bodies, run, key.get())?;
    input(ground, rows, state, &k, line, col)
}

/// The length of a value.
#[cycle(exp)]
#[tactic(auto, using(crate::proofs::RunRules::exp_rules))]
fn len_of<F: Fn(&mut Rows, &mut State, &Txt, &Pairs, &Vals, u32, u32) -> Result<Flow, Cut>>(
    ground: &Ground,
    rows: &mut Rows,
    state: &mut State,
    bodies: u32,
    run: &F,
    of: &Sub,
    line: u32,
    col: u32,
) -> Result<Value, Cut>
    requires can { CanRun (F.pre run.now) }
    requires runs { RunsBody (F.post run.now) ground.now bodies }
    ensures answer { Comes result rows.new state.new (exp_on ground.now bodies (Exp.parts Form.len (at line col) (one of.now)) rows.old state.old) }
    ensures kept { IfOk result (λ v. Kept (view v)) }
{
    let v = expr(ground, rows, state, bodies, run, of.get())?;
    len_given(state, &v, line, col)
}

/// The keys of a dictionary.
#[cycle(exp)]
#[tactic(auto, using(crate::proofs::RunRules::exp_rules))]
fn keys_of<F: Fn(&mut Rows, &mut State, &Txt, &Pairs, &Vals, u32, u32) -> Result<Flow, Cut>>(
    ground: &Ground,
    rows: &mut Rows,
    state: &mut State,
    bodies: u32,
    run: &F,
    of: &Sub,
    line: u32,
    col: u32,
) -> Result<Value, Cut>
    requires can { CanRun (F.pre run.now) }
    requires runs { RunsBody (F.post run.now) ground.now bodies }
    ensures answer { Comes result rows.new state.new (exp_on ground.now bodies (Exp.parts Form.keys (at line col) (one of.now)) rows.old state.old) }
    ensures kept { IfOk result (λ v. Kept (view v)) }
{
    let v = expr(ground, rows, state, bodies, run, of.get())?;
    keys_given(state, ground.alloc, &v, line, col)
}

/// Whether a dictionary has a key.
#[cycle(exp)]
#[tactic(auto, using(crate::proofs::RunRules::exp_rules))]
fn has_of<F: Fn(&mut Rows, &mut State, &Txt, &Pairs, &Vals, u32, u32) -> Result<Flow, Cut>>(
    ground: &Ground,
    rows: &mut Rows,
    state: &mut State,
    bodies: u32,
    run: &F,
    dict: &Sub,
    key: &Sub,
    line: u32,
    col: u32,
) -> Result<Value, Cut>
    requires can { CanRun (F.pre run.now) }
    requires runs { RunsBody (F.post run.now) ground.now bodies }
    ensures answer { Comes result rows.new state.new
        (exp_on ground.now bodies (Exp.parts Form.has (at line col) (two dict.now key.now)) rows.old state.old) }
    ensures kept { IfOk result (λ v. Kept (view v)) }
{
    let d = expr(ground, rows, state, bodies, run, dict.get())?;
    let k = expr(ground, rows, state, bodies, run, key.get())?;
    has_given(state, &d, &k, line, col)
}

/// A list of numbers in turn.
#[cycle(exp)]
#[tactic(auto, using(crate::proofs::RunRules::exp_rules))]
fn range_of<F: Fn(&mut Rows, &mut State, &Txt, &Pairs, &Vals, u32, u32) -> Result<Flow, Cut>>(
    ground: &Ground,
    rows: &mut Rows,
    state: &mut State,
    bodies: u32,
    run: &F,
    from: &Sub,
    to: &Sub,
    line: u32,
    col: u32,
) -> Result<Value, Cut>
    requires can { CanRun (F.pre run.now) }
    requires runs { RunsBody (F.post run.now) ground.now bodies }
    ensures answer { Comes result rows.new state.new
        (exp_on ground.now bodies (Exp.parts Form.range (at line col) (two from.now to.now)) rows.old state.old) }
    ensures kept { IfOk result (λ v. Kept (view v)) }
{
    let a = expr(ground, rows, state, bodies, run, from.get())?;
    let b = expr(ground, rows, state, bodies, run, to.get())?;
    range_given(state, ground.alloc, &a, &b, line, col)
}

/// The values of expressions, in order.
#[cycle(exp)]
#[tactic(auto, using(crate::proofs::RunRules::exp_rules))]
fn values<F: Fn(&mut Rows, &mut State, &Txt, &Pairs, &Vals, u32, u32) -> Result<Flow, Cut>>(
    ground: &Ground,
    rows: &mut Rows,
    state: &mut State,
    bodies: u32,
    run: &F,
    es: &Exprs,
) -> Result<Vals, Cut>
    requires can { CanRun (F.pre run.now) }
    requires runs { RunsBody (F.post run.now) ground.now bodies }
    ensures answer { Lists result rows.new state.new (values_on ground.now bodies es.now no_vals rows.old state.old) }
    ensures kept { IfOk result KeptVals }
{
    let mut vs = Vals::new(ground.alloc);
    for e in es.as_slice() {
        let v = expr(ground, rows, state, bodies, run, e)?;
        vs.push(v)?;
    }
    Ok(vs)
}

/// What the operators of a chain make of its first value.
#[cycle(exp)]
#[tactic(auto, using(crate::proofs::RunRules::exp_rules))]
fn links<F: Fn(&mut Rows, &mut State, &Txt, &Pairs, &Vals, u32, u32) -> Result<Flow, Cut>>(
    ground: &Ground,
    rows: &mut Rows,
    state: &mut State,
    bodies: u32,
    run: &F,
    first: Value,
    rest: &[Link],
) -> Result<Value, Cut>
    requires can { CanRun (F.pre run.now) }
    requires runs { RunsBody (F.post run.now) ground.now bodies }
    requires kept { Kept (view first) }
    ensures answer { Comes result rows.new state.new (links_on ground.now bodies (links_view rest.now) (view first) rows.old state.old) }
    ensures kept { IfOk result (λ v. Kept (view v)) }
{
    let mut v = first;
    for link in rest {
        v = linked(ground, rows, state, bodies, run, &v, link)?;
    }
    Ok(v)
}

/// What one operator of a chain makes of the value before it.
#[cycle(exp)]
#[tactic(auto, using(crate::proofs::RunRules::exp_rules))]
fn linked<F: Fn(&mut Rows, &mut State, &Txt, &Pairs, &Vals, u32, u32) -> Result<Flow, Cut>>(
    ground: &Ground,
    rows: &mut Rows,
    state: &mut State,
    bodies: u32,
    run: &F,
    v: &Value,
    link: &Link,
) -> Result<Value, Cut>
    requires can { CanRun (F.pre run.now) }
    requires runs { RunsBody (F.post run.now) ground.now bodies }
    requires kept { Kept (view v.now) }
    ensures answer { Comes result rows.new state.new
        (links_on ground.now bodies (tree.link (arith_view link.now.op) (at link.now.line link.now.col) (exp_view link.now.operand)
        tree.no_links) (view v.now) rows.old state.old) }
    ensures kept { IfOk result (λ v. Kept (view v)) }
{
    let right = expr(ground, rows, state, bodies, run, &link.operand)?;
    give(
        state,
        apply(ground.alloc, link.op, v, &right),
        link.line,
        link.col,
    )
}

/// What a chain of `&&`, which stops at false, or of `||`, which stops at true, makes of its first
/// value.
#[cycle(exp)]
#[tactic(auto, using(crate::proofs::RunRules::exp_rules))]
fn joins<F: Fn(&mut Rows, &mut State, &Txt, &Pairs, &Vals, u32, u32) -> Result<Flow, Cut>>(
    ground: &Ground,
    rows: &mut Rows,
    state: &mut State,
    bodies: u32,
    run: &F,
    stop: bool,
    first: Value,
    rest: &[Join],
) -> Result<Value, Cut>
    requires can { CanRun (F.pre run.now) }
    requires runs { RunsBody (F.post run.now) ground.now bodies }
    requires kept { Kept (view first) }
    ensures answer { Comes result rows.new state.new
        (ands_on ground.now bodies (ands_view rest.now) (junction stop) (at 0 0) (view first) rows.old state.old) }
    ensures kept { IfOk result (λ v. Kept (view v)) }
{
    let mut v = first;
    let mut line = 0;
    let mut col = 0;
    for join in rest {
        line = join.line;
        col = join.col;
        state.visit(line, col)?;
        if decide(&v, line, col)? == stop {
            return Ok(Value::Bool(stop));
        }
        v = expr(ground, rows, state, bodies, run, &join.operand)?;
    }
    Ok(Value::Bool(decide(&v, line, col)?))
}

/// What indices and calls make of a value.
#[cycle(exp)]
#[tactic(auto, using(crate::proofs::RunRules::exp_rules))]
fn steps<F: Fn(&mut Rows, &mut State, &Txt, &Pairs, &Vals, u32, u32) -> Result<Flow, Cut>>(
    ground: &Ground,
    rows: &mut Rows,
    state: &mut State,
    bodies: u32,
    run: &F,
    first: Value,
    rest: &[Step],
) -> Result<Value, Cut>
    requires can { CanRun (F.pre run.now) }
    requires runs { RunsBody (F.post run.now) ground.now bodies }
    requires kept { Kept (view first) }
    ensures answer { Comes result rows.new state.new (steps_on ground.now bodies (steps_view rest.now) (view first) rows.old state.old) }
    ensures kept { IfOk result (λ v. Kept (view v)) }
{
    let mut v = first;
    for step in rest {
        v = stepped(ground, rows, state, bodies, run, &v, step)?;
    }
    Ok(v)
}

/// What one index or call makes of the value before it.
#[cycle(exp)]
#[tactic(auto, using(crate::proofs::RunRules::exp_rules))]
fn stepped<F: Fn(&mut Rows, &mut State, &Txt, &Pairs, &Vals, u32, u32) -> Result<Flow, Cut>>(
    ground: &Ground,
    rows: &mut Rows,
    state: &mut State,
    bodies: u32,
    run: &F,
    v: &Value,
    step: &Step,
) -> Result<Value, Cut>
    requires can { CanRun (F.pre run.now) }
    requires runs { RunsBody (F.post run.now) ground.now bodies }
    requires kept { Kept (view v.now) }
    ensures answer { Comes result rows.new state.new (steps_on ground.now bodies (step_view step.now tree.no_steps) (view v.now) rows.old state.old) }
    ensures kept { IfOk result (λ v. Kept (view v)) }
{
    match step {
        Step::Index { at, line, col } => {
            let i = expr(ground, rows, state, bodies, run, at)?;
            give(state, index(v, &i), *line, *col)
        }
        Step::Call { args, line, col } => {
            let args = values(ground, rows, state, bodies, run, args)?;
            state.visit(*line, *col)?;
            call(ground, rows, state, bodies, run, v, &args, *line, *col)
        }
    }
}

/// The value of a call, visited before.
#[tactic(auto, using(crate::proofs::RunRules::exp_rules))]
fn call<F: Fn(&mut Rows, &mut State, &Txt, &Pairs, &Vals, u32, u32) -> Result<Flow, Cut>>(
    ground: &Ground,
    rows: &mut Rows,
    state: &mut State,
    bodies: u32,
    run: &F,
    f: &Value,
    args: &Vals,
    line: u32,
    col: u32,
) -> Result<Value, Cut>
    requires can { CanRun (F.pre run.now) }
    requires runs { RunsBody (F.post run.now) ground.now bodies }
    requires kept { Kept (view f.now) }
    requires args { KeptVals args.now }
    ensures answer { Comes result rows.new state.new (opened_on ground.now bodies (view f.now) args.now (at line col) rows.old state.old) }
    ensures kept { IfOk result (λ v. Kept (view v)) }
{
    let fun = callee(ground, f, args, line, col)?;
    let mut inner = State::new(ground.alloc, state.count());
    let flow = run(rows, &mut inner, fun.name, fun.caught, args, line, col)?;
    state.resume(&inner);
    match flow {
        Flow::Goes => Ok(Value::Null),
        Flow::Returned(v) => Ok(v),
    }
}
