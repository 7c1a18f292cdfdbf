// What a form makes of its parts, when it has been visited.

ghost use Rattle.std.specs.Prelude.{◌≡◌, ◌≤◌, ◌<◌, ◌+◌, ◌*◌, ℕ, List, [], ◌∷◌, IfOk, IfSome, IfNone, length};
ghost use Rattle.sky_base.specs.Kept.{Kept};
ghost use Rattle.sky_base.specs.View.{view};
ghost use Rattle.sky_base.specs.TreeView.{at};
ghost use Rattle.sky_base.specs.Res as logic;
ghost use Rattle.sky_base.specs.Res.{Fin, fails};
ghost use Rattle.sky_base.specs.Eval as run;
ghost use Rattle.sky_base.specs.Eval.{World};
ghost use Rattle.sky_base.specs.Tree.{Place, Form};
ghost use Rattle.sky_base.specs.Names.{known_of};
ghost use Rattle.sky_base_scope.specs.Plain.{Val, Vars, items};
ghost use Rattle.sky_base_scope.specs.RunView.{KeptVals};
ghost use Rattle.sky_machine_code.specs.Shapes.{form_view};
ghost use Rattle.sky_machine_entries.specs.Config.{Run, rest_in, config, opened};
ghost use Rattle.sky_machine_entries.specs.Entries.{end_of, forms};
ghost use Rattle.sky_machine_entries.specs.declared.entry.Entry as rust;
ghost use Rattle.sky_machine_entries.specs.Falls.{load};
ghost use Rattle.sky_machine_entries.specs.Ready.{EndReady, AllReady, Goes};
ghost use Rattle.sky_machine_parts.specs.Made.{whole, RunsOn};

use crate::made::{Ground, input, make_outputs, spawn};
use ciel_name::name::Namer;
use sky_base::fault::FaultKind;
use sky_base::names::Names;
use sky_base::object::Named;
use sky_base::op::limited;
use sky_base::text::Memory;
use sky_base::value::{Vals, Value};
use sky_base_forms::forms::references;
use sky_base_scope::ops::{dictionary, has, keys, len, range};
use sky_machine_code::code::Code;
use sky_machine_code::shape::PartForm;
use sky_machine_entries::control::{Control, End, Wait, fail};
use sky_machine_entries::entry::{Entry, ExecWait, InForm};
use sky_machine_entries::list::push;
use sky_machine_entries::visit::{failed, given, given_exact};
use std::alloc::Global;

/// Two parts.
#[derive(Clone, Copy, Drop)]
struct Two<'a> {
    first: &'a Value,
    second: &'a Value,
}

/// Three parts.
#[derive(Clone, Copy, Drop)]
struct Three<'a> {
    first: &'a Value,
    second: &'a Value,
    third: &'a Value,
}

/// The only part, where there is one.
#[tactic(auto, using(crate::proofs::Items::part_rules))]
fn one_part<'a>(values: &'a Vals) -> Option<&'a Value>
    requires { KeptVals values.now }
    ensures some { IfSome result (λ v. items values.entry.now ≡ view v.now ∷ []) }
    ensures kept { IfSome result (λ v. Kept (view v.now)) }
    ensures none { IfNone result ((p : Place) (st : Vars) (k : Val → Run) → run.with_one (items values.entry.now) p st k
        ≡ fails FaultKind.BadKind p st) }
{
    if values.len() != 1 {
        return None;
    }
    match values.get(0) {
        None => None,
        Some(only) => Some(only),
    }
}

/// The two parts, where there are two.
#[tactic(auto, using(crate::proofs::Items::part_rules))]
fn two_parts<'a>(values: &'a Vals) -> Option<Two<'a>>
    requires { KeptVals values.now }
    ensures some { IfSome result (λ t. items values.entry.now ≡ view t.first.now ∷ view t.second.now ∷ []) }
    ensures kept { IfSome result (λ t. Kept (view t.first.now) × Kept (view t.second.now)) }
    ensures none { IfNone result ((p : Place) (st : Vars) (k : Val → Val → Run) → run.with_two (items values.entry.now) p st k
        ≡ fails FaultKind.BadKind p st) }
{
    if values.len() != 2 {
        return None;
    }
    let Some(first) = values.get(0) else {
        return None;
    };
    let Some(second) = values.get(1) else {
        return None;
    };
    Some(Two { first, second })
}

/// The three parts, where there are three.
#[tactic(auto, using(crate::proofs::Items::part_rules))]
fn three_parts<'a>(values: &'a Vals) -> Option<Three<'a>>
    requires { KeptVals values.now }
    ensures some { IfSome result (λ t. items values.entry.now ≡ view t.first.now ∷ view t.second.now ∷ view t.third.now ∷ []) }
    ensures none { IfNone result ((p : Place) (st : Vars) (k : Val → Val → Val → Run) → run.with_three (items values.entry.now) p st k
        ≡ fails FaultKind.BadKind p st) }
{
    if values.len() != 3 {
        return None;
    }
    let Some(first) = values.get(0) else {
        return None;
    };
    let Some(second) = values.get(1) else {
        return None;
    };
    let Some(third) = values.get(2) else {
        return None;
    };
    Some(Three {
        first,
        second,
        third,
    })
}

/// A list.
fn list_of(values: Vals, line: u32, col: u32) -> End
    requires { KeptVals values }
    ensures same { (w : World (List ℕ)) (n : ℕ) (st : Vars) → run.formed w Form.list (items values) n (at line col) st ≡ Fin (end_of result) st }
    ensures ready { EndReady result }
{
    given_exact(limited(Value::List(values)), line, col)
}

/// A dictionary.
fn dict_of(alloc: Global, values: &Vals, line: u32, col: u32) -> Result<End, Memory>
    requires { KeptVals values.now }
    ensures same { IfOk result (λ e. (w : World (List ℕ)) (n : ℕ) (st : Vars) → run.formed w Form.dict (items values.now) n (at line col) st
        ≡ Fin (end_of e) st) }
    ensures ready { IfOk result EndReady }
{
    let end = given(dictionary(alloc, values), line, col)?;
    Ok(end)
}

/// `len`.
fn len_of(values: &Vals, line: u32, col: u32) -> Result<End, Memory>
    requires { KeptVals values.now }
    ensures same { IfOk result (λ e. (w : World (List ℕ)) (n : ℕ) (st : Vars) → run.formed w Form.len (items values.now) n (at line col) st
        ≡ Fin (end_of e) st) }
    ensures ready { IfOk result EndReady }
{
    match one_part(values) {
        Some(v) => Ok(given_exact(len(v), line, col)),
        None => Ok(failed(FaultKind::BadKind, line, col)),
    }
}

/// `keys`.
fn keys_of(alloc: Global, values: &Vals, line: u32, col: u32) -> Result<End, Memory>
    requires { KeptVals values.now }
    ensures same { IfOk result (λ e. (w : World (List ℕ)) (n : ℕ) (st : Vars) → run.formed w Form.keys (items values.now) n (at line col) st
        ≡ Fin (end_of e) st) }
    ensures ready { IfOk result EndReady }
{
    match one_part(values) {
        Some(v) => given(keys(alloc, v), line, col),
        None => Ok(failed(FaultKind::BadKind, line, col)),
    }
}

/// `has`.
fn has_of(values: &Vals, line: u32, col: u32) -> Result<End, Memory>
    requires { KeptVals values.now }
    ensures same { IfOk result (λ e. (w : World (List ℕ)) (n : ℕ) (st : Vars) → run.formed w Form.has (items values.now) n (at line col) st
        ≡ Fin (end_of e) st) }
    ensures ready { IfOk result EndReady }
{
    match two_parts(values) {
        Some(Two { first, second }) => Ok(given_exact(has(first, second), line, col)),
        None => Ok(failed(FaultKind::BadKind, line, col)),
    }
}

/// `range`.
fn range_of(alloc: Global, values: &Vals, line: u32, col: u32) -> Result<End, Memory>
    requires { KeptVals values.now }
    ensures same { IfOk result (λ e. (w : World (List ℕ)) (n : ℕ) (st : Vars) → run.formed w Form.range (items values.now) n (at line col) st
        ≡ Fin (end_of e) st) }
    ensures ready { IfOk result EndReady }
{
    match two_parts(values) {
        Some(Two { first, second }) => given(range(alloc, first, second), line, col),
        None => Ok(failed(FaultKind::BadKind, line, col)),
    }
}

/// `spawn`.
fn spawn_of<N: Namer>(
    ground: &Ground<N>,
    made: &mut Vec<Named>,
    values: &Vals,
    line: u32,
    col: u32,
) -> Result<End, Memory>
    requires { KeptVals values.now }
    ensures same { IfOk result (λ e. (w : World (List ℕ)) (es : List rust.Entry) (n : ℕ) (st : Vars)
        → RunsOn w ground.now.code.now (N.digest ground.now.namer.now)
        → whole (N.digest ground.now.namer.now) made.new.items (rest_in w es (Fin (end_of e) st))
        ≡ whole (N.digest ground.now.namer.now) made.old.items (rest_in w es (run.formed w Form.spawn (items values.now) n (at line col) st))) }
    ensures ready { IfOk result EndReady }
{
    match two_parts(values) {
        None => Ok(failed(FaultKind::BadKind, line, col)),
        Some(Two { first, second }) => {
            let end = spawn(ground, made, first, second, line, col)?;
            Ok(end)
        }
    }
}

/// `ref`.
fn ref_of<N: Namer>(
    ground: &Ground<N>,
    made: &mut Vec<Named>,
    values: &Vals,
    line: u32,
    col: u32,
) -> Result<End, Memory>
    requires { KeptVals values.now }
    ensures same { IfOk result (λ e. (w : World (List ℕ)) (es : List rust.Entry) (n : ℕ) (st : Vars)
        → RunsOn w ground.now.code.now (N.digest ground.now.namer.now)
        → whole (N.digest ground.now.namer.now) made.new.items (rest_in w es (Fin (end_of e) st))
        ≡ whole (N.digest ground.now.namer.now) made.old.items (rest_in w es (run.formed w Form.ref (items values.now) n (at line col) st))) }
    ensures ready { IfOk result EndReady }
{
    match one_part(values) {
        None => Ok(failed(FaultKind::BadKind, line, col)),
        Some(key) => {
            let end = input(ground, made, key, line, col)?;
            Ok(end)
        }
    }
}

/// `spawn_exec`.
fn spawn_exec_of<N: Namer>(
    ground: &Ground<N>,
    made: &mut Vec<Named>,
    values: &Vals,
    line: u32,
    col: u32,
) -> Result<End, Memory>
    requires { KeptVals values.now }
    ensures same { IfOk result (λ e. (w : World (List ℕ)) (es : List rust.Entry) (n : ℕ) (st : Vars)
        → RunsOn w ground.now.code.now (N.digest ground.now.namer.now)
        → whole (N.digest ground.now.namer.now) made.new.items (rest_in w es (Fin (end_of e) st))
        ≡ whole (N.digest ground.now.namer.now) made.old.items
        (rest_in w es (run.formed w Form.spawn_exec (items values.now) n (at line col) st))) }
    ensures ready { IfOk result EndReady }
{
    match three_parts(values) {
        None => Ok(failed(FaultKind::BadKind, line, col)),
        Some(
            Three {
                first,
                second,
                third,
            },
        ) => match make_outputs(ground, made, first, second, third)? {
            Err(kind) => Ok(failed(kind, line, col)),
            Ok(names) => {
                let refs = references(ground.alloc, &names)?;
                Ok(End::Got(refs))
            }
        },
    }
}

/// Waits for all of these outputs.
fn wait_for<'a>(
    code: &Code,
    alloc: Global,
    entries: &mut Vec<Entry<'a>>,
    node: u32,
    names: Names,
) -> Result<Control<'a>, Memory>
    requires { AllReady code.now entries.old.items }
    ensures same { IfOk result (λ c. (w : World (List ℕ)) (st : Vars) → config w entries.new.items c st
        ≡ rest_in w entries.old.items (run.exec_ask w node (known_of names) st)) }
    ensures ready { IfOk result (λ c. AllReady code.now entries.new.items) }
    ensures goes { IfOk result (λ c. Goes code.now c) }
    ensures opened { IfOk result (λ c. opened (forms entries.new.items) ≡ opened (forms entries.old.items)) }
    ensures light { IfOk result (λ c. load entries.new.items c ≤ 2 * length entries.old.items + 4) }
{
    let mut waited = Names::new(alloc);
    for name in names.as_slice() {
        waited.push(*name)?;
    }
    push(
        entries,
        Entry::Form(InForm::ExecWait(ExecWait { node, names })),
    )?;
    Ok(Control::Wait(Wait::All(waited)))
}

/// `exec`.
fn exec_of<'a, N: Namer>(
    ground: &Ground<N>,
    made: &mut Vec<Named>,
    entries: &mut Vec<Entry<'a>>,
    values: &Vals,
    node: u32,
    line: u32,
    col: u32,
) -> Result<Control<'a>, Memory>
    requires ready { AllReady ground.now.code.now entries.old.items }
    requires kept { KeptVals values.now }
    ensures same { IfOk result (λ c. (w : World (List ℕ)) (st : Vars) → RunsOn w ground.now.code.now (N.digest ground.now.namer.now)
        → whole (N.digest ground.now.namer.now) made.new.items (config w entries.new.items c st)
        ≡ whole (N.digest ground.now.namer.now) made.old.items
        (rest_in w entries.old.items (run.formed w Form.exec (items values.now) node (at line col) st))) }
    ensures ready { IfOk result (λ c. AllReady ground.now.code.now entries.new.items) }
    ensures goes { IfOk result (λ c. Goes ground.now.code.now c) }
    ensures opened { IfOk result (λ c. opened (forms entries.new.items) ≡ opened (forms entries.old.items)) }
    ensures light { IfOk result (λ c. load entries.new.items c ≤ 2 * length entries.old.items + 4) }
{
    match three_parts(values) {
        None => Ok(fail(FaultKind::BadKind, line, col)),
        Some(
            Three {
                first,
                second,
                third,
            },
        ) => match make_outputs(ground, made, first, second, third)? {
            Err(kind) => Ok(fail(kind, line, col)),
            Ok(names) => {
                let control = wait_for(ground.code, ground.alloc, entries, node, names)?;
                Ok(control)
            }
        },
    }
}

/// What a form makes of its parts.
pub fn formed<'a, N: Namer>(
    ground: &Ground<N>,
    made: &mut Vec<Named>,
    entries: &mut Vec<Entry<'a>>,
    form: PartForm,
    values: Vals,
    node: u32,
    line: u32,
    col: u32,
) -> Result<Control<'a>, Memory>
    requires ready { AllReady ground.now.code.now entries.old.items }
    requires kept { KeptVals values }
    ensures same { IfOk result (λ c. (w : World (List ℕ)) (st : Vars) → RunsOn w ground.now.code.now (N.digest ground.now.namer.now)
        → whole (N.digest ground.now.namer.now) made.new.items (config w entries.new.items c st)
        ≡ whole (N.digest ground.now.namer.now) made.old.items
        (rest_in w entries.old.items (run.formed w (form_view form) (items values) node (at line col) st))) }
    ensures ready { IfOk result (λ c. AllReady ground.now.code.now entries.new.items) }
    ensures goes { IfOk result (λ c. Goes ground.now.code.now c) }
    ensures opened { IfOk result (λ c. opened (forms entries.new.items) ≡ opened (forms entries.old.items)) }
    ensures light { IfOk result (λ c. load entries.new.items c ≤ 2 * length entries.old.items + 4) }
{
    let alloc = ground.alloc;
    match form {
        PartForm::Exec => {
            let control = exec_of(ground, made, entries, &values, node, line, col)?;
            Ok(control)
        }
        PartForm::Spawn => Ok(Control::End(spawn_of(ground, made, &values, line, col)?)),
        PartForm::Ref => Ok(Control::End(ref_of(ground, made, &values, line, col)?)),
        PartForm::SpawnExec => Ok(Control::End(spawn_exec_of(ground, made, &values, line, col)?)),
        PartForm::List => Ok(Control::End(list_of(values, line, col))),
        PartForm::Dict => Ok(Control::End(dict_of(alloc, &values, line, col)?)),
        PartForm::Len => Ok(Control::End(len_of(&values, line, col)?)),
        PartForm::Keys => Ok(Control::End(keys_of(alloc, &values, line, col)?)),
        PartForm::Has => Ok(Control::End(has_of(&values, line, col)?)),
        PartForm::Range => Ok(Control::End(range_of(alloc, &values, line, col)?)),
    }
}
