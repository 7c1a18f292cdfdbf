// What is done to a table whose tasks that can run are kept. No worker is dropped before or by that, but in `lose`.

ghost use Rattle.std.specs.Prelude.{◌≡◌, [], IfOk, true};
ghost use Rattle.ciel_table.specs.Seen.{waits_of};
ghost use Rattle.ciel_table.specs.Sound.{IsAbove};
ghost use Rattle.ciel_want.specs.Waited.{Whole};

use ciel_name::name::Sha1Namer;
use ciel_name::object::canon;
use ciel_table::table::Table;
use ciel_table::wait::Wait;
use ciel_table_tests::made::{Spot, named};
use ciel_want::whole::is_whole;
use ciel_want_ready::ready::Ready;
use sky_base::name::Name;
use sky_base::names::Names;
use sky_base::object::{Desc1, Named, TaskId};
use sky_base::text::{Memory, Txt};
use sky_base::value::Value;
use std::alloc::Global;
use std::test::Fail;

/// An executor's task with one output.
pub fn exec(alloc: Global, args: Value) -> Result<Named, Memory> {
    let executor = Txt::new(alloc, "sort")?;
    named(
        alloc,
        Desc1::Exec {
            executor,
            args,
            outputs: 1,
            index: 0,
        },
    )
}

/// A table with no rows.
pub fn open(alloc: Global, main: &Name) -> Result<Ready<Spot>, Memory>
    ensures gone { IfOk result (λ r. r.table.gone ≡ []) }
    ensures main { IfOk result (λ r. r.main ≡ main.now) }
{
    let ready = Ready::open(alloc, *main, 4)?;
    Ok(ready)
}

/// Learns a description.
pub fn learn(ready: &mut Ready<Spot>, named: &Named) -> Result<(), Fail>
    ensures gone { ready.new.table.gone ≡ ready.old.table.gone }
    ensures main { ready.new.main ≡ ready.old.main }
{
    match ready.learn(named, &Sha1Namer) {
        Ok(_) => Ok(()),
        Err(_) => Err(Fail::from("not learned")),
    }
}

/// An object lies at worker 0.
pub fn place(ready: &mut Ready<Spot>, name: &Name) -> Result<(), Fail>
    requires gone { ready.old.table.gone ≡ [] }
    ensures gone { ready.new.table.gone ≡ [] }
    ensures main { ready.new.main ≡ ready.old.main }
{
    if ready.table().find(name).is_none() {
        return Err(Fail::from("no row"));
    }
    ready.add_place(name, Spot { worker: 0 })?;
    Ok(())
}

// Whether no wait of a task is saved.
fn has_none(table: &Table<Spot>, task: &TaskId) -> bool
    ensures { result ≡ true → IsAbove 1 (waits_of task.now table.now) }
{
    match table.last_wait(task) {
        Some(_) => false,
        None => true,
    }
}

fn wait_for(alloc: Global, name: &Name) -> Result<Wait<Spot>, Memory>
    ensures number { IfOk result (λ w. w.j ≡ 1) }
{
    let mut refs = Names::new(alloc);
    refs.push(*name)?;
    Ok(Wait {
        j: 1,
        place: Spot { worker: 0 },
        refs,
        holds: Names::new(alloc),
    })
}

/// A task saves its first wait, for one name.
pub fn save(alloc: Global, ready: &mut Ready<Spot>, task: &TaskId, name: &Name) -> Result<(), Fail>
    requires gone { ready.old.table.gone ≡ [] }
    ensures gone { ready.new.table.gone ≡ [] }
    ensures main { ready.new.main ≡ ready.old.main }
{
    if !has_none(ready.table(), task) {
        return Err(Fail::from("a wait before"));
    }
    let wait = wait_for(alloc, name)?;
    ready.save_wait(task, wait)?;
    Ok(())
}

/// The first of the tasks that can run.
fn first(ready: &mut Ready<Spot>) -> Result<TaskId, Fail>
    requires whole { Whole ready.old.main ready.old.table }
    ensures same { ready.new ≡ ready.old }
{
    let many = ready.count()?;
    if many == 0 {
        return Err(Fail::from("no task can run"));
    }
    let task = ready.nth(0)?;
    Ok(task)
}

/// Starts the first of the tasks that can run.
pub fn turn(alloc: Global, ready: &mut Ready<Spot>, main: &Name) -> Result<TaskId, Fail>
    requires main { ready.old.main ≡ main.now }
    ensures gone { ready.new.table.gone ≡ ready.old.table.gone }
    ensures main { ready.new.main ≡ ready.old.main }
{
    if !is_whole(alloc, ready.table(), main)? {
        return Err(Fail::from("a name without a row"));
    }
    let task = first(ready)?;
    ready.start(&task)?;
    Ok(task)
}

// Whether this is the description, by its bytes.
fn is_desc(alloc: Global, desc: &Desc1, next: Option<&Named>) -> Result<bool, Memory> {
    match next {
        Some(named) => {
            let is = canon(alloc, desc)?;
            let meant = canon(alloc, &named.desc)?;
            Ok(is.as_slice() == meant.as_slice())
        }
        None => Ok(false),
    }
}

/// Whether this is the one that follows a task.
pub fn is_next(
    alloc: Global,
    ready: &mut Ready<Spot>,
    main: &Name,
    task: &TaskId,
    next: Option<&Named>,
) -> Result<bool, Fail>
    requires main { ready.old.main ≡ main.now }
    ensures main { ready.new.main ≡ ready.old.main }
{
    if !is_whole(alloc, ready.table(), main)? {
        return Err(Fail::from("a name without a row"));
    }
    let follower = ready.follower(task)?;
    match follower {
        Some(desc) => {
            let is = is_desc(alloc, &desc, next)?;
            Ok(is)
        }
        None => Ok(next.is_none()),
    }
}

/// A worker is lost: what is searched anew begins with the first again.
pub fn lose(ready: &mut Ready<Spot>)
    ensures main { ready.new.main ≡ ready.old.main }
{
    ready.drop_worker(0);
}

/// A task is out no longer.
pub fn close(ready: &mut Ready<Spot>, task: &TaskId)
    ensures gone { ready.new.table.gone ≡ ready.old.table.gone }
    ensures main { ready.new.main ≡ ready.old.main }
{
    ready.close(task);
}
