// Descriptions that are made: each gets its name, and is put at the end of the list of what was spawned.

ghost use Rattle.std.specs.Prelude.{◌≡◌, ◌≤◌, ℕ, List, IfOk, IfErr, length, [], ◌∷◌, ◌++◌, true, ◌&&◌, nat_lt, pos};
ghost use Rattle.sky_base.specs.Kept.{Kept};
ghost use Rattle.sky_base.specs.Val as value;
ghost use Rattle.sky_base.specs.Val.{known, refs_to, num};
ghost use Rattle.sky_base.specs.Val.{list as listed};
ghost use Rattle.sky_base.specs.View.{view};
ghost use Rattle.sky_base.specs.Name.{digested};
ghost use Rattle.sky_base.specs.Names.{known_of};
ghost use Rattle.sky_base.specs.ObjectView.{desc_view};
ghost use Rattle.sky_base.specs.Res as logic;
ghost use Rattle.sky_base.specs.Res.{Tell, Fin, fails};
ghost use Rattle.sky_base.specs.Eval.{World, make_one, outputs_count, spawned, input_of};
ghost use Rattle.sky_base.specs.Tree.{Place};
ghost use Rattle.sky_base.specs.TreeView.{at};
ghost use Rattle.sky_base_scope.specs.Plain.{Val, Vars};
ghost use Rattle.sky_machine_entries.specs.Config.{Run, rest_in};
ghost use Rattle.sky_machine_entries.specs.Entries.{end_of};
ghost use Rattle.sky_machine_entries.specs.declared.entry.Entry.{Entry};
ghost use Rattle.sky_machine_entries.specs.Ready.{EndReady};
ghost use Rattle.sky_machine_parts.specs.Made.{whole, RunsOn, OutputsSo};

use ciel_name::name::Namer;
use ciel_name::object::canon;
use sky_base::fault::FaultKind;
use sky_base::name::Name;
use sky_base::names::Names;
use sky_base::object::{Desc1, Named};
use sky_base::text::{Memory, Txt};
use sky_base::value::{Pairs, Vals, Value};
use sky_base_scope::funs::is_one_of;
use sky_machine_code::code::Code;
use sky_machine_entries::control::End;
use sky_machine_entries::visit::failed;
use std::alloc::Global;

/// What a run stands on: its script, and what names descriptions.
#[derive(Drop)]
pub struct Ground<'b, 'a, N> {
    pub alloc: Global,
    pub code: &'b Code<'a>,
    pub namer: &'b N,
}

/// The name of a description.
fn name_of<N: Namer>(ground: &Ground<N>, desc: &Desc1) -> Result<Name, Memory>
    ensures { IfOk result (λ n. n ≡ digested (N.digest ground.now.namer.now) (desc_view desc.now)) }
{
    let bytes = canon(ground.alloc, desc)?;
    Ok(ground.namer.name(bytes.as_slice()))
}

/// A description is made: its name.
pub fn make<N: Namer>(
    ground: &Ground<N>,
    made: &mut Vec<Named>,
    desc: Desc1,
) -> Result<Name, Memory>
    ensures name { IfOk result (λ n. n ≡ digested (N.digest ground.now.namer.now) (desc_view desc)) }
    ensures whole { IfOk result (λ n. (r : Run) → whole (N.digest ground.now.namer.now) made.new.items r
        ≡ whole (N.digest ground.now.namer.now) made.old.items (Tell (desc_view desc) r)) }
{
    let name = name_of(ground, &desc)?;
    let Ok(()) = made.reserve(1) else {
        return Err(Memory)
    };
    made.push_reserved(Named { name, desc });
    Ok(name)
}

/// A description is made: the reference to it.
fn reference_to<N: Namer>(
    ground: &Ground<N>,
    made: &mut Vec<Named>,
    desc: Desc1,
) -> Result<End, Memory>
    ensures same { IfOk result (λ e. (w : World (List ℕ)) (es : List Entry) (st : Vars)
        → RunsOn w ground.now.code.now (N.digest ground.now.namer.now)
        → whole (N.digest ground.now.namer.now) made.new.items (rest_in w es (Fin (end_of e) st))
        ≡ whole (N.digest ground.now.namer.now) made.old.items (rest_in w es (make_one w (desc_view desc) st))) }
    ensures ready { IfOk result EndReady }
{
    let name = make(ground, made, desc)?;
    Ok(End::Got(Value::Ref(name)))
}

// A call of a function, described.
fn call_of(fun: &Txt, caught: &Pairs, args: &Vals) -> Result<Desc1, Memory>
    ensures { IfOk result (λ d. desc_view d ≡ value.call fun.now caught.now args.now) }
{
    Ok(Desc1::Call {
        fun: fun.share()?,
        caught: caught.copy()?,
        args: args.copy()?,
    })
}

// An output of an executor task, described.
fn output_of(executor: &Txt, args: &Value, outputs: u32, index: u32) -> Result<Desc1, Memory>
    ensures { IfOk result (λ d. desc_view d ≡ value.out executor.now (view args.now) outputs index) }
{
    Ok(Desc1::Exec {
        executor: executor.share()?,
        args: args.copy()?,
        outputs,
        index,
    })
}

// An input, described.
fn input_desc(key: &Txt) -> Result<Desc1, Memory>
    ensures { IfOk result (λ d. desc_view d ≡ value.input key.now) }
{
    Ok(Desc1::Input { key: key.share()? })
}

/// `spawn` of a function on a list of arguments: the reference to the call.
pub fn spawn<N: Namer>(
    ground: &Ground<N>,
    made: &mut Vec<Named>,
    fun: &Value,
    args: &Value,
    line: u32,
    col: u32,
) -> Result<End, Memory>
    ensures same { IfOk result (λ e. (w : World (List ℕ)) (es : List Entry) (st : Vars)
        → RunsOn w ground.now.code.now (N.digest ground.now.namer.now)
        → whole (N.digest ground.now.namer.now) made.new.items (rest_in w es (Fin (end_of e) st))
        ≡ whole (N.digest ground.now.namer.now) made.old.items (rest_in w es (spawned w (view fun.now) (view args.now) (at line col) st))) }
    ensures ready { IfOk result EndReady }
{
    let Value::Fun { name, caught } = fun else {
        return Ok(failed(FaultKind::BadKind, line, col));
    };
    let Value::List(args) = args else {
        return Ok(failed(FaultKind::BadKind, line, col));
    };
    let Some(fun) = ground.code.program().find(name) else {
        return Ok(failed(FaultKind::BadKind, line, col));
    };
    if fun.params.as_slice().len() != args.len() {
        return Ok(failed(FaultKind::WrongCount, line, col));
    }
    let desc = call_of(name, caught, args)?;
    let end = reference_to(ground, made, desc)?;
    Ok(end)
}

/// `ref` of an input: the reference to it.
pub fn input<N: Namer>(
    ground: &Ground<N>,
    made: &mut Vec<Named>,
    key: &Value,
    line: u32,
    col: u32,
) -> Result<End, Memory>
    ensures same { IfOk result (λ e. (w : World (List ℕ)) (es : List Entry) (st : Vars)
        → RunsOn w ground.now.code.now (N.digest ground.now.namer.now)
        → whole (N.digest ground.now.namer.now) made.new.items (rest_in w es (Fin (end_of e) st))
        ≡ whole (N.digest ground.now.namer.now) made.old.items (rest_in w es (input_of w (view key.now) (at line col) st))) }
    ensures ready { IfOk result EndReady }
{
    let Value::Text(key) = key else {
        return Ok(failed(FaultKind::BadKind, line, col));
    };
    if !is_one_of(ground.code.program().keys(), key) {
        return Ok(failed(FaultKind::Unknown, line, col));
    }
    let desc = input_desc(key)?;
    let end = reference_to(ground, made, desc)?;
    Ok(end)
}

/// How many outputs an executor task is asked for, from 1 to 64, or the fault.
fn wanted(outputs: &Value) -> Result<u32, FaultKind>
    ensures ok { IfOk result (λ n. (view outputs.now ≡ num (pos n)) × (n ≤ 64) × (nat_lt 0 n && nat_lt n 65 ≡ true)) }
    ensures err { IfErr result (λ e. (w : World (List ℕ)) (x : List ℕ) (a : Val) (p : Place) (st : Vars)
        (k : List (value.Desc (List ℕ)) → Vars → Run) → fails e p st ≡ outputs_count w x a (view outputs.now) p st k) }
{
    let Value::Int(n) = outputs else {
        return Err(FaultKind::BadKind);
    };
    if *n < 1 || *n > 64 {
        return Err(FaultKind::BadCount);
    }
    Ok(*n as u32)
}

// One output of an executor task is made: its name goes to the end of the names.
fn make_output<N: Namer>(
    ground: &Ground<N>,
    made: &mut Vec<Named>,
    names: &mut Names,
    executor: &Txt,
    args: &Value,
    outputs: u32,
    index: u32,
) -> Result<(), Memory>
    ensures whole { IfOk result (λ _. (r : Run) → whole (N.digest ground.now.namer.now) made.new.items r
        ≡ whole (N.digest ground.now.namer.now) made.old.items (Tell (value.out executor.now (view args.now) outputs index) r)) }
    ensures names { IfOk result (λ _. names.new ≡ names.old
        ++ digested (N.digest ground.now.namer.now) (value.out executor.now (view args.now) outputs index) ∷ []) }
{
    let desc = output_of(executor, args, outputs, index)?;
    let name = make(ground, made, desc)?;
    names.push(name)?;
    Ok(())
}

/// The names of all outputs of an executor task, made in order, or the fault.
pub fn make_outputs<N: Namer>(
    ground: &Ground<N>,
    made: &mut Vec<Named>,
    executor: &Value,
    args: &Value,
    count: &Value,
) -> Result<Result<Names, FaultKind>, Memory>
    ensures same { IfOk result (OutputsSo (N.digest ground.now.namer.now) ground.now.code.now made.old.items made.new.items (view executor.now)
        (view args.now) (view count.now)) }
    ensures few { IfOk result (λ r. IfOk r (λ ns. length ns ≤ 64)) }
{
    let Value::Text(executor) = executor else {
        return Ok(Err(FaultKind::BadKind));
    };
    let n = match wanted(count) {
        Ok(n) => n,
        Err(kind) => return Ok(Err(kind)),
    };
    let mut names = Names::new(ground.alloc);
    for index in 0..n {
        make_output(ground, made, &mut names, executor, args, n, index)?;
    }
    Ok(Ok(names))
}
