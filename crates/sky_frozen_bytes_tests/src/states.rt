// States: how a call and the root task start, and what a state waits for, holds and has made.

ghost use Rattle.std.specs.Prelude.{◌≡◌, IfOk};
ghost use Rattle.sky_base.specs.StmtView.{stm_view};
ghost use Rattle.sky_base.specs.Tree.{nodes, links_nodes, stm_nodes, stms_nodes, funs_nodes};
ghost use Rattle.sky_base.specs.TreeView.{exp_view};

use sky_base::name::Name;
use sky_base::object::{Desc1, Named};
use sky_base::script::{FunDefs, Script, Texts};
use sky_base::stmt::{Block, Stmt};
use sky_base::text::Txt;
use sky_base::tree::{ArithOp, Expr, Link, Links, Lit, Sub};
use sky_base::value::{Pairs, Vals, Value};
use sky_state::frame::{Frame, Frames, Stack, Todo, Todos};
use sky_state::spawned::Spawned;
use sky_state::state::{RunState, State};
use std::alloc::Global;
use std::test::Fail;

fn name(byte: u8) -> Name {
    Name::short([byte; 20])
}

fn reference(byte: u8) -> Value {
    Value::Ref(name(byte))
}

fn number(value: i64, col: u32) -> Expr
    ensures { nodes (exp_view result) ≡ 1 }
{
    Expr::Literal {
        value: Lit::Int(value),
        line: 1,
        col,
    }
}

/// `+ 2`
fn plus_two(alloc: Global) -> Result<Links, Fail>
    ensures { IfOk result (λ ls. links_nodes ls ≡ 1) }
{
    let operand = number(2, 12);
    let mut links = Vec::new(alloc);
    links.push(Link {
        op: ArithOp::Plus,
        line: 1,
        col: 10,
        operand,
    })?;
    Ok(Links::of(links))
}

/// `return 1 + 2;`
fn returns_sum(alloc: Global) -> Result<Stmt, Fail>
    ensures { IfOk result (λ s. stm_nodes (stm_view s) ≡ 4) }
{
    let rest = plus_two(alloc)?;
    let first = Sub::new(alloc, number(1, 8))?;
    Ok(Stmt::Return {
        line: 1,
        col: 1,
        value: Some(Expr::Chain { first, rest }),
    })
}

/// The body that is this statement.
fn body_of(alloc: Global, stmt: Stmt) -> Result<Block, Fail>
    ensures { IfOk result (λ b. stms_nodes b ≡ stm_nodes (stm_view stmt)) }
{
    let mut stmts = Vec::new(alloc);
    stmts.push(stmt)?;
    Ok(Block::of(stmts))
}

/// The script `return 1 + 2;`.
fn sum(alloc: Global) -> Result<Script, Fail> {
    let main = body_of(alloc, returns_sum(alloc)?)?;
    let funs = FunDefs::of(Vec::new(alloc));
    Ok(Script::new(funs, main, Texts::of(Vec::new(alloc))))
}

/// Whether the state waits for these names, and holds those, by their bytes.
fn names(alloc: Global, state: &State, waits: &[u8], holds: &[u8]) -> Result<bool, Fail> {
    Ok(are(state.pending(alloc)?.as_slice(), waits) && are(state.holds(alloc)?.as_slice(), holds))
}

fn are(names: &[Name], bytes: &[u8]) -> bool {
    if names.len() != bytes.len() {
        return false;
    }
    for (found, byte) in names.iter().zip(bytes) {
        if *found != name(*byte) {
            return false;
        }
    }
    true
}

/// The start of the main body of `return 1 + 2;`.
fn start_of_sum(alloc: Global) -> Result<State, Fail> {
    let script = sum(alloc)?;
    let (fun, caught, args) = (Txt::new(alloc, "")?, Pairs::new(alloc), Vals::new(alloc));
    Ok(State::start_call(alloc, &script, &fun, &caught, &args)?)
}

#[test]
fn the_main_body_starts_with_nothing(rt: HostRuntime) -> Result<(), Fail> {
    let state = start_of_sum(rt.alloc())?;
    assert!(rt; names(rt.alloc(), &state, &[], &[])?);
    let State::Run(run) = &state else {
        return Err(Fail::from("no run"));
    };
    assert!(rt; run.count == 0 && run.waits == 0 && run.spawned.as_slice().is_empty());
    let [frame] = run.frames.as_slice() else {
        return Err(Fail::from("not one frame"));
    };
    assert!(rt; frame.fun.is_empty() && frame.vars.len() == 0 && frame.stack.as_slice().is_empty());
    assert!(rt; frame.todo.as_slice() == [Todo { node: 0, step: 0 }].as_slice());
    Ok(())
}

#[test]
fn the_root_task_starts_with_the_main_call(rt: HostRuntime) -> Result<(), Fail> {
    let mut state = State::start_show(name(1));
    assert!(rt; matches!(&state, State::Show { wave: 0, .. }));
    assert!(rt; names(rt.alloc(), &state, &[1], &[1])?);
    assert!(rt; state.take_spawned(rt.alloc()).as_slice().is_empty());
    Ok(())
}

fn frame(alloc: Global, fun: &str, vars: Pairs, stack: Vec<Value>) -> Result<Frame, Fail> {
    Ok(Frame {
        fun: Txt::new(alloc, fun)?,
        vars,
        stack: Stack::of(stack),
        todo: Todos::of(Vec::new(alloc)),
    })
}

fn waiting(alloc: Global, frames: Vec<Frame>) -> State {
    State::Run(RunState {
        frames: Frames::of(frames),
        count: 15,
        waits: 2,
        spawned: Spawned::new(alloc),
    })
}

fn set(alloc: Global, vars: &mut Pairs, key: &str, value: Value) -> Result<(), Fail> {
    vars.insert(Txt::new(alloc, key)?, value)?;
    Ok(())
}

/// `a = spawn(f, [3]); b = spawn(f, [4]); return *a + *b;` at `*b`.
fn squares(alloc: Global) -> Result<State, Fail> {
    let vars = pairs(alloc, &[("a", 65), ("b", 66)])?;
    let stack = stack(alloc, Value::Int(9), reference(66))?;
    let frames = one(alloc, frame(alloc, "", vars, stack)?)?;
    Ok(waiting(alloc, frames))
}

/// References at these keys.
fn pairs(alloc: Global, references: &[(&'static str, u8)]) -> Result<Pairs, Fail> {
    let mut pairs = Pairs::new(alloc);
    for (key, byte) in references {
        set(alloc, &mut pairs, key, reference(*byte))?;
    }
    Ok(pairs)
}

fn stack(alloc: Global, first: Value, second: Value) -> Result<Vec<Value>, Fail> {
    let mut stack = Vec::new(alloc);
    stack.push(first)?;
    stack.push(second)?;
    Ok(stack)
}

fn one(alloc: Global, frame: Frame) -> Result<Vec<Frame>, Fail> {
    let mut frames = Vec::new(alloc);
    frames.push(frame)?;
    Ok(frames)
}

/// The variable `f`, a function that captured a reference.
fn calling(alloc: Global) -> Result<Pairs, Fail> {
    let caught = pairs(alloc, &[("k", 3)])?;
    let fun = Value::Fun {
        name: Txt::new(alloc, "#0")?,
        caught,
    };
    let mut vars = Pairs::new(alloc);
    set(alloc, &mut vars, "f", fun)?;
    Ok(vars)
}

/// References to outputs, two of them the same.
fn outputs(alloc: Global) -> Result<Vals, Fail> {
    let mut outputs = Vals::new(alloc);
    for byte in [5, 4, 5] {
        outputs.push(reference(byte))?;
    }
    Ok(outputs)
}

/// The frame of an `exec` that waits.
fn executor(alloc: Global) -> Result<Frame, Fail> {
    let mut stack = Vec::new(alloc);
    stack.push(Value::List(outputs(alloc)?))?;
    let own = pairs(alloc, &[("x", 2)])?;
    frame(alloc, "#0", own, stack)
}

/// An `exec` inside a call: the caller has a function that captured a reference.
fn executing(alloc: Global) -> Result<State, Fail> {
    let bottom = frame(alloc, "", calling(alloc)?, Vec::new(alloc))?;
    let mut frames = one(alloc, bottom)?;
    frames.push(executor(alloc)?)?;
    Ok(waiting(alloc, frames))
}

#[test]
fn a_state_waits_for_what_its_last_form_keeps(rt: HostRuntime) -> Result<(), Fail> {
    assert!(rt; names(rt.alloc(), &squares(rt.alloc())?, &[66], &[65, 66])?);
    assert!(rt; names(rt.alloc(), &executing(rt.alloc())?, &[5, 4], &[3, 2, 5, 4])?);
    Ok(())
}

#[test]
fn what_was_made_is_handed_out_once(rt: HostRuntime) -> Result<(), Fail> {
    let mut state = squares(rt.alloc())?;
    if let State::Run(run) = &mut state {
        let key = Txt::new(rt.alloc(), "t")?;
        run.spawned.push(Named {
            name: name(7),
            desc: Desc1::Input { key },
        })?;
    }
    let taken = state.take_spawned(rt.alloc()).into_vec();
    assert!(rt; taken.len() == 1 && taken[0].name == name(7));
    assert!(rt; state.take_spawned(rt.alloc()).as_slice().is_empty());
    Ok(())
}
