// Open work: which description is to have its object next. A run that needs an object that isn't
// known is left, and begins anew when the object is there, so no recursion goes from one description
// into another.

ghost use Rattle.std.specs.Prelude.{◌≡◌, ◌<◌, ◌≤◌, ◌++◌, Err, Ok, IfOk, IfErr, Some, None, MatchOption, length, slice_get, List, [], ◌∷◌};
ghost use Rattle.sky_base.specs.JobView.{job_view};
ghost use Rattle.sky_base.specs.See.{input_bytes};
ghost use Rattle.ciel_json.specs.Around.{json_around};
ghost use Rattle.sky_plain.specs.Stand.{Opens, Standing};
ghost use Rattle.sky_plain_body.specs.Ran.{Begins};
ghost use Rattle.sky_plain.specs.Settle.{ArgsKept, CallsKept, Steps, SettledSo};
ghost use Rattle.sky_base.specs.Kept.{Kept};
ghost use Rattle.sky_base.specs.Val.{list, dict, call, out, input, known, refs};
ghost use Rattle.sky_base.specs.View.{view};
ghost use Rattle.sky_base_law.specs.Tasks.{In};
ghost use Rattle.sky_base_known.specs.Walk.{known_of};
ghost use Rattle.sky_plain.specs.Stage.{AllKnown};

use crate::stack::Stack;
use sky_base::job::{Inputs, Job};
use sky_base::kit::Kit;
use sky_base::name::Name;
use sky_base::object::{Desc1, Object};
use sky_base::text::{Bytes, Memory, Txt};
use sky_base::value::{Pairs, Vals, Value};
use sky_base_exec::outputs::tell;
use sky_base_exec::task::perform;
use sky_base_known::objects::{Objects, number_of};
use sky_base_known::rows::Rows;
use sky_base_scope::program::Program;
use sky_plain_body::run::{Ran, run_call};
use std::alloc::Global;

/// What a step comes to.
#[derive(Clone, Copy, Debug)]
pub enum Step {
    /// The object is known now.
    Known,
    /// The description of this number is to have its object first.
    Waits(u32),
    /// One description too many is made.
    Full,
}

// The object of a call that is open last, or what it waits for.
fn called<K: Kit>(
    alloc: Global,
    job: &Job,
    program: &Program,
    kit: &K,
    rows: &mut Rows,
    objects: &mut Objects,
    number: u32,
    fun: &Txt,
    caught: &Pairs,
    args: &Vals,
) -> Result<Step, Memory>
    requires script { program.now ≡ (job_view job.now).script }
    requires at { slice_get rows.old number ≡ Some (call fun.now caught.now args.now) }
    requires kept { Kept (list args.now) }
    requires kept_caught { Kept (dict caught.now) }
    ensures grows { IfOk result (λ _. Begins rows.old rows.new) }
    ensures step { IfOk result (Steps (job_view job.now) (json_around (K.gives kit.now)) number rows.old rows.new objects.old objects.new) }
{
    let ran = run_call(alloc, program, rows, objects, fun, caught, args)?;
    let _held = rows.len();
    match ran {
        Ran::Object(object) => {
            objects.set(number, object)?;
            Ok(Step::Known)
        }
        Ran::Waits(name) => Ok(Step::Waits(number_of(&name))),
        Ran::Full => Ok(Step::Full),
    }
}

/// The first name in the value whose object isn't known.
#[tactic(auto, using(crate::proofs::Lacks::lacks))]
pub fn unknown(alloc: Global, value: &Value, objects: &Objects) -> Result<Option<Name>, Memory>
    ensures { IfOk result (λ o. MatchOption o (AllKnown objects.now (refs (view value.now)))
        (λ n. In (known n) (refs (view value.now)) × (known_of objects.now (known n) ≡ None))) }
{
    let names = value.refs(alloc)?;
    for name in names.as_slice() {
        let Some(_) = objects.known(name) else {
            return Ok(Some(*name))
        };
    }
    Ok(None)
}

// An output of an executor task: all its outputs become known by one run, where its inputs are known. Or
// what isn't known of these.
fn executed<K: Kit>(
    alloc: Global,
    job: &Job,
    kit: &K,
    rows: &Rows,
    objects: &mut Objects,
    number: u32,
    executor: &Txt,
    args: &Value,
    outputs: u32,
) -> Result<Step, Memory>
    requires kept { Kept (view args.now) }
    ensures step { IfOk result (λ s. (i : _) → slice_get rows.now number ≡ Some (out executor.now (view args.now) outputs i)
        → Steps (job_view job.now) (json_around (K.gives kit.now)) number rows.now rows.now objects.old objects.new s) }
{
    let _held = rows.len();
    if let Some(name) = unknown(alloc, args, objects)? {
        return Ok(Step::Waits(number_of(&name)));
    }
    let made = perform(alloc, kit, executor, args, outputs, objects)?;
    tell(rows, objects, executor, args, outputs, &made)?;
    Ok(Step::Known)
}

// The bytes of an input; nothing where there is none of this name.
#[tactic(auto, using(crate::proofs::Inputs::inputs))]
fn input(alloc: Global, inputs: &Inputs, key: &Txt) -> Result<Bytes, Memory>
    ensures { IfOk result (λ b. b ≡ input_bytes key.now inputs.now) }
{
    for input in inputs.as_slice() {
        if key.as_str().cmp(input.0.as_str()).is_eq() {
            return input.1.share();
        }
    }
    Bytes::new(alloc, Vec::new(alloc))
}

// The object of the description of this number, or what it waits for.
fn advance<K: Kit>(
    alloc: Global,
    job: &Job,
    program: &Program,
    kit: &K,
    rows: &mut Rows,
    objects: &mut Objects,
    number: u32,
) -> Result<Step, Memory>
    requires script { program.now ≡ (job_view job.now).script }
    requires held { number < length rows.old }
    requires kept { CallsKept rows.old }
    requires kept_args { ArgsKept rows.old }
    ensures grows { IfOk result (λ _. Begins rows.old rows.new) }
    ensures step { IfOk result (Steps (job_view job.now) (json_around (K.gives kit.now)) number rows.old rows.new objects.old objects.new) }
{
    let desc = rows.desc(number).copy()?;
    match &desc {
        Desc1::Call { fun, caught, args } => called(
            alloc, job, program, kit, rows, objects, number, fun, caught, args,
        ),
        Desc1::Exec {
            executor,
            args,
            outputs,
            ..
        } => executed(
            alloc, job, kit, rows, objects, number, executor, args, *outputs,
        ),
        Desc1::Input { key } => given(alloc, job, kit, rows, objects, number, key),
    }
}

// An input.
fn given<K: Kit>(
    alloc: Global,
    job: &Job,
    _kit: &K,
    rows: &Rows,
    objects: &mut Objects,
    number: u32,
    key: &Txt,
) -> Result<Step, Memory>
    requires at { slice_get rows.now number ≡ Some (input key.now) }
    ensures step { IfOk result (Steps (job_view job.now) (json_around (K.gives _kit.now)) number rows.now rows.now objects.old objects.new) }
{
    let _held = rows.len();
    let bytes = input(alloc, &job.inputs, key)?;
    objects.set(number, Object::Bytes(bytes))?;
    Ok(Step::Known)
}

/// How many descriptions may be open at once, each waited for by the task of the one before it.
pub const MOST_OPEN: usize = 4096;

/// How the open work ends.
#[derive(Clone, Copy, Debug)]
pub enum Settled {
    /// The object is known.
    Known,
    /// 4,096 descriptions are open, and the last one waits for a further one.
    TooDeep,
    /// One description too many is made.
    Full,
}

/// Goes on until the object of the description of this number is known. A run that waits for what
/// isn't known is left, and begins anew when that is known.
#[tactic(auto, using(crate::proofs::OpenWork::work))]
pub fn settle<K: Kit>(
    alloc: Global,
    job: &Job,
    program: &Program,
    kit: &K,
    rows: &mut Rows,
    objects: &mut Objects,
    first: u32,
) -> Result<Settled, Memory>
    requires script { program.now ≡ (job_view job.now).script }
    requires held { first < length rows.old }
    requires small { length objects.old ≤ 65536 }
    requires standing { Standing (job_view job.now) (json_around (K.gives kit.now)) rows.old objects.old }
    requires opens { Opens (job_view job.now) (json_around (K.gives kit.now)) rows.old (first ∷ []) }
    ensures grows { IfOk result (λ _. Begins rows.old rows.new) }
    ensures settled { IfOk result (λ s. SettledSo (job_view job.now) (json_around (K.gives kit.now)) first rows.new objects.old objects.new s) }
{
    let mut open = Stack::new(alloc);
    open.push(first)?;
    while let Some(top) = open.top() {
        let _held = rows.len();
        if objects.has(top) {
            open.pop();
            continue;
        }
        match advance(alloc, job, program, kit, rows, objects, top)? {
            Step::Known => {}
            Step::Full => return Ok(Settled::Full),
            Step::Waits(next) => {
                if open.len() >= MOST_OPEN {
                    return Ok(Settled::TooDeep);
                }
                open.push(next)?;
            }
        }
    }
    Ok(Settled::Known)
}
