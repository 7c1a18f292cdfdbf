// The main call waits for the call of `f`, which is made; then the main call is, and then the root task runs.

ghost use Rattle.std.specs.Prelude.{◌≡◌, [], IfOk};

use crate::steps::{close, exec, is_next, learn, lose, open, place, save, turn};
use ciel_table_tests::made::{Spot, Two, make_two};
use ciel_want_ready::ready::Ready;
use sky_base::object::{Named, TaskId};
use sky_base::value::{Vals, Value};
use std::alloc::Global;
use std::test::Fail;

// The next turn starts the task of a description.
fn starts(alloc: Global, ready: &mut Ready<Spot>, two: &Two, named: &Named) -> Result<bool, Fail>
    requires main { ready.old.main ≡ two.now.main.name }
    ensures gone { ready.new.table.gone ≡ ready.old.table.gone }
    ensures main { ready.new.main ≡ ready.old.main }
{
    let task = turn(alloc, ready, &two.main.name)?;
    Ok(task == TaskId::Of(named.name))
}

// And it comes to its end.
fn makes(alloc: Global, ready: &mut Ready<Spot>, two: &Two, named: &Named) -> Result<bool, Fail>
    requires gone { ready.old.table.gone ≡ [] }
    requires main { ready.old.main ≡ two.now.main.name }
    ensures gone { ready.new.table.gone ≡ [] }
    ensures main { ready.new.main ≡ ready.old.main }
{
    let is = starts(alloc, ready, two, named)?;
    place(ready, &named.name)?;
    close(ready, &TaskId::Of(named.name));
    Ok(is)
}

// The main call spawns the other one, and waits for it.
fn spawns(alloc: Global, ready: &mut Ready<Spot>, two: &Two) -> Result<bool, Fail>
    requires gone { ready.old.table.gone ≡ [] }
    requires main { ready.old.main ≡ two.now.main.name }
    ensures gone { ready.new.table.gone ≡ [] }
    ensures main { ready.new.main ≡ ready.old.main }
{
    let is = starts(alloc, ready, two, &two.main)?;
    let task = TaskId::Of(two.main.name);
    learn(ready, &two.square)?;
    save(alloc, ready, &task, &two.square.name)?;
    close(ready, &task);
    Ok(is)
}

// A table that knows the main call.
fn begun(alloc: Global, two: &Two) -> Result<Ready<Spot>, Fail>
    ensures gone { IfOk result (λ r. r.table.gone ≡ []) }
    ensures main { IfOk result (λ r. r.main ≡ two.now.main.name) }
{
    let mut ready = open(alloc, &two.main.name)?;
    learn(&mut ready, &two.main)?;
    Ok(ready)
}

// After the squares are made the main call goes on, and the root task is last.
fn ends(alloc: Global, ready: &mut Ready<Spot>, two: &Two) -> Result<bool, Fail>
    requires gone { ready.old.table.gone ≡ [] }
    requires main { ready.old.main ≡ two.now.main.name }
{
    let square = makes(alloc, ready, two, &two.square)?;
    let main = makes(alloc, ready, two, &two.main)?;
    let last = turn(alloc, ready, &two.main.name)?;
    Ok(square && main && last == TaskId::Show)
}

// Where the worker is lost before, the main call begins again.
fn begins_again(alloc: Global, ready: &mut Ready<Spot>, two: &Two) -> Result<bool, Fail>
    requires main { ready.old.main ≡ two.now.main.name }
{
    lose(ready);
    starts(alloc, ready, two, &two.main)
}

fn runs(alloc: Global, two: &Two) -> Result<bool, Fail> {
    let mut ready = begun(alloc, two)?;
    let waits = spawns(alloc, &mut ready, two)?;
    let all = ends(alloc, &mut ready, two)?;
    Ok(waits && all)
}

fn loses(alloc: Global, two: &Two) -> Result<bool, Fail> {
    let mut ready = begun(alloc, two)?;
    let waits = spawns(alloc, &mut ready, two)?;
    let again = begins_again(alloc, &mut ready, two)?;
    Ok(waits && again)
}

// The references to the first one, twice, and to the other one.
fn three(alloc: Global, first: &Named, other: &Named) -> Result<Value, Fail> {
    let mut args = Vals::new(alloc);
    args.push(Value::Ref(first.name))?;
    args.push(Value::Ref(first.name))?;
    args.push(Value::Ref(other.name))?;
    Ok(Value::List(args))
}

// Three tasks: two read what the first makes, and one of these what the other makes besides.
#[derive(Drop)]
struct Readers {
    first: Named,
    other: Named,
    twice: Named,
}

fn make_readers(alloc: Global) -> Result<Readers, Fail> {
    let first = exec(alloc, Value::Null)?;
    let other = exec(alloc, Value::Ref(first.name))?;
    let twice = exec(alloc, three(alloc, &first, &other)?)?;
    Ok(Readers {
        first,
        other,
        twice,
    })
}

// A table that knows the main call and the three.
fn knows(alloc: Global, two: &Two, readers: &Readers) -> Result<Ready<Spot>, Fail>
    ensures gone { IfOk result (λ r. r.table.gone ≡ []) }
    ensures main { IfOk result (λ r. r.main ≡ two.now.main.name) }
{
    let mut ready = begun(alloc, two)?;
    learn(&mut ready, &readers.first)?;
    learn(&mut ready, &readers.twice)?;
    learn(&mut ready, &readers.other)?;
    Ok(ready)
}

// The main call waits for this.
fn waits(alloc: Global, ready: &mut Ready<Spot>, two: &Two, named: &Named) -> Result<(), Fail>
    requires gone { ready.old.table.gone ≡ [] }
    requires main { ready.old.main ≡ two.now.main.name }
    ensures main { ready.new.main ≡ ready.old.main }
{
    let task = turn(alloc, ready, &two.main.name)?;
    save(alloc, ready, &task, &named.name)?;
    close(ready, &task);
    Ok(())
}

// The one that reads what the first one makes, and nothing else, follows it; the one that reads twice follows none.
fn follows(alloc: Global, two: &Two, readers: &Readers) -> Result<bool, Fail> {
    let mut ready = knows(alloc, two, readers)?;
    waits(alloc, &mut ready, two, &readers.twice)?;
    let first = TaskId::Of(readers.first.name);
    let other = TaskId::Of(readers.other.name);
    let next = is_next(
        alloc,
        &mut ready,
        &two.main.name,
        &first,
        Some(&readers.other),
    )?;
    let none = is_next(alloc, &mut ready, &two.main.name, &other, None)?;
    Ok(next && none)
}

#[test]
fn the_other_one_follows(rt: HostRuntime) -> Result<(), Fail> {
    let two = make_two(rt.alloc())?;
    let three = make_readers(rt.alloc())?;
    assert!(rt; follows(rt.alloc(), &two, &three)?);
    Ok(())
}

#[test]
fn each_turn_starts_the_next(rt: HostRuntime) -> Result<(), Fail> {
    let two = make_two(rt.alloc())?;
    assert!(rt; runs(rt.alloc(), &two)?);
    Ok(())
}

#[test]
fn a_loss_begins_again(rt: HostRuntime) -> Result<(), Fail> {
    let two = make_two(rt.alloc())?;
    assert!(rt; loses(rt.alloc(), &two)?);
    Ok(())
}
