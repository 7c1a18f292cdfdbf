// The forms that are visited after all of their parts, the signs, and how an operator's answer is placed.

ghost use Rattle.std.specs.Prelude.{◌≡◌, ◌≤◌, List, ℕ, IfOk, IfErr, length, reverse};
ghost use Rattle.sky_base.specs.Kept.{Kept};
ghost use Rattle.sky_base.specs.Val.{list, refs_to};
ghost use Rattle.sky_base.specs.View.{view};
ghost use Rattle.sky_base.specs.Names.{known_of as known_names};
ghost use Rattle.sky_base.specs.Op as op;
ghost use Rattle.sky_base.specs.Tree.{Form};
ghost use Rattle.sky_base.specs.Eval as run;
ghost use Rattle.sky_base.specs.OpView.{Answers, Exactly};
ghost use Rattle.sky_base.specs.ObjectView.{desc_view, object_view};
ghost use Rattle.sky_base.specs.TreeView.{at, at as place, signs_view, sign_view};
ghost use Rattle.sky_base_known.specs.Walk.{Row, look, known_of};
ghost use Rattle.sky_base_scope.specs.Plain as plain;
ghost use Rattle.sky_base_scope.specs.Plain.{Val, Pairs, Out, Answer, Vars, visit, formed, spawned, input_of, called, exec_seen, signed, outputs_of};
ghost use Rattle.sky_base_forms.specs.GroundView.{ground_of};
ghost use Rattle.sky_base_scope.specs.RunView.{Comes, given, KeptPairs, DecidesAt, Learns, LearnsAll, Wanted, WaitsForAll, GoesOn, SignsOn, three_vals};
ghost use Rattle.sky_base_scope.specs.RunView.{fault_first, cut_of};

use crate::ground::Ground;
use sky_base::fault::{Fault, FaultKind};
use sky_base::name::Name;
use sky_base::names::Names;
use sky_base::object::{Desc1, Object};
use sky_base::op::OpRefusal;
use sky_base::text::{Memory, Txt};
use sky_base::tree::{SignAt, SignOp};
use sky_base::value::{Pairs, Vals, Value};
use sky_base_known::data::read;
use sky_base_known::objects::{Objects, slot};
use sky_base_known::rows::Rows;
use sky_base_scope::cut::{Cut, fault};
use sky_base_scope::funs::{closed, fun_named, is_one_of};
use sky_base_scope::ops::{negated, opposite, truth};
use sky_base_scope::state::State;
use std::alloc::Global;

/// Visits the node of a form, and gives the value that was made of its parts; or its refusal, at its
/// place.
pub fn give(
    state: &mut State,
    answer: Result<Value, OpRefusal>,
    line: u32,
    col: u32,
) -> Result<Value, Cut>
    ensures answer { (a : Answer) → Answers answer a → (rows : List Row) → Comes result rows state.new (given a (at line col) rows state.old) }
    ensures kept { IfOk answer (λ v. Kept (view v)) → IfOk result (λ v. Kept (view v)) }
{
    state.visit(line, col)?;
    match answer {
        Ok(v) => Ok(v),
        Err(OpRefusal::Refused(kind)) => Err(fault(kind, line, col)),
        Err(OpRefusal::Memory) => Err(Cut::Memory),
    }
}

/// Visits the node of a form, and gives the value that was made of its parts; or its fault, at its
/// place.
pub fn give_exact(
    state: &mut State,
    answer: Result<Value, FaultKind>,
    line: u32,
    col: u32,
) -> Result<Value, Cut>
    ensures answer { (a : Answer) → Exactly answer a → (rows : List Row) → Comes result rows state.new (given a (at line col) rows state.old) }
    ensures kept { IfOk answer (λ v. Kept (view v)) → IfOk result (λ v. Kept (view v)) }
{
    state.visit(line, col)?;
    match answer {
        Ok(v) => Ok(v),
        Err(kind) => Err(fault(kind, line, col)),
    }
}

/// By a truth value; BadKind at its place.
pub fn decide(v: &Value, line: u32, col: u32) -> Result<bool, Cut>
    ensures decides { DecidesAt result (view v.now) (at line col) }
    ensures truth { IfErr result (λ c. (rows : List Row) (k : Val → Out) → plain.answer (run.truth_of (view v.now)) (at line col) rows k
        ≡ Out.cut (cut_of c) rows) }
{
    match truth(v) {
        Ok(b) => Ok(b),
        Err(kind) => Err(fault(kind, line, col)),
    }
}

/// The value of a variable, else the function of its name, else Unknown.
pub fn named(
    ground: &Ground,
    state: &mut State,
    name: &Txt,
    line: u32,
    col: u32,
) -> Result<Value, Cut>
    ensures answer { (rows : List Row) → Comes result rows state.new
        (given (run.named (op.find name.now state.old.vars) name.now (ground_of ground.now).script.funs) (at line col) rows state.old) }
    ensures kept { IfOk result (λ v. Kept (view v)) }
{
    let answer = match state.find(name)? {
        Some(v) => Ok(v),
        None => fun_named(ground.alloc, ground.script, name),
    };
    give(state, answer, line, col)
}

/// An anonymous function, which captures the variables that its body uses.
pub fn function(
    ground: &Ground,
    state: &mut State,
    name: &Txt,
    line: u32,
    col: u32,
) -> Result<Value, Cut>
    ensures answer { (rows : List Row) → Comes result rows state.new
        (given (run.closed (run.find_fun name.now (ground_of ground.now).script.funs) name.now state.old.vars) (at line col) rows state.old) }
    ensures kept { IfOk result (λ v. Kept (view v)) }
{
    let answer = closed(ground.alloc, ground.script, state, name);
    give(state, answer, line, col)
}

/// Holds a description, and gives its name.
pub fn learn(alloc: Global, rows: &mut Rows, desc: Desc1) -> Result<Name, Cut>
    ensures { Learns result rows.old rows.new (desc_view desc) }
{
    match rows.learn(desc)? {
        Some(number) => Ok(slot(number)),
        None => Err(Cut::Full),
    }
}

/// `spawn` of a function on a list of arguments, visited before.
pub fn spawn(
    ground: &Ground,
    rows: &mut Rows,
    state: &mut State,
    fun: &Value,
    args: &Value,
    line: u32,
    col: u32,
) -> Result<Value, Cut>
    ensures answer { Comes result rows.new state.new
        (visit (at line col) rows.old state.old (λ s. spawned (ground_of ground.now) (view fun.now) (view args.now) (at line col) rows.old s)) }
    ensures kept { IfOk result (λ v. Kept (view v)) }
{
    state.visit(line, col)?;
    let Value::Fun { name, caught } = fun else {
        return Err(fault(FaultKind::BadKind, line, col));
    };
    let Value::List(args) = args else {
        return Err(fault(FaultKind::BadKind, line, col));
    };
    let Some(fun) = ground.script.find(name) else {
        return Err(fault(FaultKind::BadKind, line, col));
    };
    if fun.params.as_slice().len() != args.len() {
        return Err(fault(FaultKind::WrongCount, line, col));
    }
    let desc = Desc1::Call {
        fun: name.share()?,
        caught: caught.copy()?,
        args: args.copy()?,
    };
    let name = learn(ground.alloc, rows, desc)?;
    Ok(Value::Ref(name))
}

/// `ref` of an input, visited before.
pub fn input(
    ground: &Ground,
    rows: &mut Rows,
    state: &mut State,
    key: &Value,
    line: u32,
    col: u32,
) -> Result<Value, Cut>
    ensures answer { Comes result rows.new state.new
        (visit (at line col) rows.old state.old (λ s. input_of (ground_of ground.now) (view key.now) (at line col) rows.old s)) }
    ensures kept { IfOk result (λ v. Kept (view v)) }
{
    state.visit(line, col)?;
    let Value::Text(key) = key else {
        return Err(fault(FaultKind::BadKind, line, col));
    };
    if !is_one_of(ground.script.keys(), key) {
        return Err(fault(FaultKind::Unknown, line, col));
    }
    let desc = Desc1::Input { key: key.share()? };
    let name = learn(ground.alloc, rows, desc)?;
    Ok(Value::Ref(name))
}

/// How many outputs an executor task is asked for: from 1 to 64.
fn outputs_wanted(outputs: &Value, line: u32, col: u32) -> Result<u32, Cut>
    ensures { Wanted result (view outputs.now) (at line col) }
{
    let Value::Int(n) = outputs else {
        return Err(fault(FaultKind::BadKind, line, col));
    };
    if *n < 1 || *n > 64 {
        return Err(fault(FaultKind::BadCount, line, col));
    }
    Ok(*n as u32)
}

/// The names of all outputs of an executor task, in order; they are held from then on.
fn outputs(
    alloc: Global,
    rows: &mut Rows,
    executor: &Value,
    args: &Value,
    outputs: &Value,
    line: u32,
    col: u32,
) -> Result<Names, Cut>
    ensures answer { LearnsAll result rows.new (λ k. outputs_of (view executor.now) (view args.now) (view outputs.now) (at line col) rows.old k) }
    ensures few { IfOk result (λ names. length names ≤ 64) }
{
    let Value::Text(executor) = executor else {
        return Err(fault(FaultKind::BadKind, line, col));
    };
    let n = outputs_wanted(outputs, line, col)?;
    let mut names = Names::new(alloc);
    for index in 0..n {
        let desc = Desc1::Exec {
            executor: executor.share()?,
            args: args.copy()?,
            outputs: n,
            index,
        };
        let name = match learn(alloc, rows, desc) {
            Ok(name) => name,
            Err(cut) => return Err(cut),
        };
        names.push(name)?;
    }
    Ok(names)
}

/// The list of the references to these, at most 64.
#[tactic(auto, using(crate::proofs::FormLaw::refs_list))]
pub fn references(alloc: Global, names: &Names) -> Result<Value, Memory>
    requires { length names.now ≤ 64 }
    ensures value { IfOk result (λ v. view v ≡ list (refs_to (known_names names.now))) }
    ensures kept { IfOk result (λ v. Kept (view v)) }
{
    let mut refs = Vals::new(alloc);
    for name in names.as_slice() {
        refs.push(Value::Ref(*name))?;
    }
    Ok(Value::List(refs))
}

/// `spawn_exec`, visited before.
pub fn spawn_exec(
    ground: &Ground,
    rows: &mut Rows,
    state: &mut State,
    executor: &Value,
    args: &Value,
    count: &Value,
    line: u32,
    col: u32,
) -> Result<Value, Cut>
    ensures answer { Comes result rows.new state.new
        (visit (at line col) rows.old state.old (λ s. formed (ground_of ground.now) Form.spawn_exec
        (three_vals (view executor.now) (view args.now) (view count.now)) (at line col) rows.old s)) }
    ensures kept { IfOk result (λ v. Kept (view v)) }
{
    state.visit(line, col)?;
    let names = outputs(ground.alloc, rows, executor, args, count, line, col)?;
    Ok(references(ground.alloc, &names)?)
}

/// `exec`, visited before: waits for all outputs, and stops at the first that is a fault.
pub fn exec(
    ground: &Ground,
    rows: &mut Rows,
    state: &mut State,
    executor: &Value,
    args: &Value,
    count: &Value,
    line: u32,
    col: u32,
) -> Result<Value, Cut>
    ensures answer { Comes result rows.new state.new
        (visit (at line col) rows.old state.old (λ s. formed (ground_of ground.now) Form.exec
        (three_vals (view executor.now) (view args.now) (view count.now)) (at line col) rows.old s)) }
    ensures kept { IfOk result (λ v. Kept (view v)) }
{
    state.visit(line, col)?;
    let names = outputs(ground.alloc, rows, executor, args, count, line, col)?;
    match wait_for_all(ground.objects, &names) {
        Ok(()) => Ok(references(ground.alloc, &names)?),
        Err(cut) => Err(cut),
    }
}

/// Whether all of these are known and none is a fault: stops at the first that isn't known, else at
/// the first fault.
fn wait_for_all(objects: &Objects, names: &Names) -> Result<(), Cut>
    ensures { let ds = known_names names.now in (rows : List Row) (st : Vars)
        → WaitsForAll result ds rows st (exec_seen (look (known_of objects.now) ds) ds rows st) }
{
    let mut first = None;
    for name in names.as_slice() {
        let Some(object) = objects.known(name) else {
            return Err(Cut::Waits(*name));
        };
        first = fault_first(first, object);
    }
    match first {
        Some(fault) => Err(Cut::Fault(fault)),
        None => Ok(()),
    }
}

/// The fault that was met before, else that of an object.
fn fault_first(first: Option<Fault>, object: &Object) -> Option<Fault>
    ensures { result ≡ fault_first first (object_view object.now) }
{
    if first.is_some() {
        return first;
    }
    match object {
        Object::Fault(fault) => Some(*fault),
        _ => None,
    }
}

/// The object of a reference as a value.
fn deref(ground: &Ground, v: &Value, line: u32, col: u32) -> Result<Value, Cut>
    ensures answer { GoesOn result (λ rows k. plain.deref (ground_of ground.now) (view v.now) (at line col) rows k) }
    ensures kept { IfOk result (λ v. Kept (view v)) }
{
    let Value::Ref(name) = v else {
        return Err(fault(FaultKind::BadKind, line, col));
    };
    match ground.objects.known(name) {
        Some(Object::Bytes(bytes)) => match read(ground.alloc, bytes)? {
            Ok(v) => Ok(v),
            Err(kind) => Err(fault(kind, line, col)),
        },
        Some(Object::Data(v)) => Ok(v.copy()?),
        Some(Object::Fault(fault)) => Err(Cut::Fault(*fault)),
        None => Err(Cut::Waits(*name)),
    }
}

/// What a sign makes of a value.
fn sign(ground: &Ground, sign: SignOp, v: &Value, line: u32, col: u32) -> Result<Value, Cut>
    ensures answer { GoesOn result (λ rows k. signed (ground_of ground.now) (sign_view sign) (view v.now) (at line col) rows k) }
    ensures kept { IfOk result (λ v. Kept (view v)) }
{
    match sign {
        SignOp::Not => match opposite(v) {
            Ok(v) => Ok(v),
            Err(kind) => Err(fault(kind, line, col)),
        },
        SignOp::Minus => match negated(v) {
            Ok(v) => Ok(v),
            Err(kind) => Err(fault(kind, line, col)),
        },
        SignOp::Star => deref(ground, v, line, col),
    }
}

/// What a sign makes of a value, which it visits.
fn signed(ground: &Ground, state: &mut State, at: SignAt, v: &Value) -> Result<Value, Cut>
    ensures answer { SignsOn result state.new (λ rows k. visit (place at.line at.col) rows state.old
        (λ s. signed (ground_of ground.now) (sign_view at.sign) (view v.now) (place at.line at.col) rows (k s))) }
    ensures kept { IfOk result (λ v. Kept (view v)) }
{
    state.visit(at.line, at.col)?;
    sign(ground, at.sign, v, at.line, at.col)
}

/// What signs make of a value, the last of them first.
pub fn signs(
    ground: &Ground,
    state: &mut State,
    signs: &[SignAt],
    first: Value,
) -> Result<Value, Cut>
    requires { Kept (view first) }
    ensures answer { (rows : List Row) → Comes result rows state.new
        (plain.signs (ground_of ground.now) (reverse (signs_view signs.now)) (view first) rows state.old) }
    ensures kept { IfOk result (λ v. Kept (view v)) }
{
    let mut v = first;
    let mut left = signs.len();
    while left > 0 {
        left -= 1;
        v = match signed(ground, state, signs[left], &v) {
            Ok(v) => v,
            Err(cut) => return Err(cut),
        };
    }
    Ok(v)
}

/// A function that may be called: its name, and what it captured.
#[derive(Drop)]
pub struct Callable<'a> {
    pub name: &'a Txt,
    pub caught: &'a Pairs,
}

/// Whether a value may be called on so many arguments: the function.
#[tactic(auto, using(sky_base_scope::proofs::Vars::calls))]
pub fn callee<'a>(
    ground: &Ground,
    f: &'a Value,
    args: &Vals,
    line: u32,
    col: u32,
) -> Result<Callable<'a>, Cut>
    requires { Kept (view f.now) }
    ensures ok { IfOk result (λ g. (rows : List Row) (k : List ℕ → Pairs → Out)
        → called (ground_of ground.now) (view f.now) args.now (at line col) rows k ≡ k g.name.now g.caught.now) }
    ensures kept { IfOk result (λ g. KeptPairs g.caught.now) }
    ensures cut { IfErr result (λ c. (rows : List Row) (k : List ℕ → Pairs → Out)
        → called (ground_of ground.now) (view f.now) args.now (at line col) rows k ≡ Out.cut (cut_of c) rows) }
{
    let Value::Fun { name, caught } = f else {
        return Err(fault(FaultKind::BadKind, line, col));
    };
    let Some(fun) = ground.script.find(name) else {
        return Err(fault(FaultKind::BadKind, line, col));
    };
    if fun.params.as_slice().len() != args.len() {
        return Err(fault(FaultKind::WrongCount, line, col));
    }
    Ok(Callable { name, caught })
}
