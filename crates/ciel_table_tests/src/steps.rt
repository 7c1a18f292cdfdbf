// What is done to a table, step by step.

ghost use Rattle.std.specs.Prelude.{◌≡◌, [], IfOk, true};
ghost use Rattle.ciel_table.specs.Seen.{waits_of};
ghost use Rattle.ciel_table.specs.Sound.{Here, IsAbove};

use crate::made::{Spot, Two};
use ciel_name::name::Sha1Namer;
use ciel_name::object::canon;
use ciel_table::refusal::Learn;
use ciel_table::table::Table;
use ciel_table::wait::Wait;
use sky_base::name::Name;
use sky_base::names::Names;
use sky_base::object::{Desc1, Named, TaskId};
use sky_base::text::{Bytes, Memory};
use std::alloc::Global;
use std::process::Abort;
use std::test::Fail;

/// Which is meant: the main call, the call of `f`, or the root task.
pub const MAIN: u32 = 0;

pub const SQUARE: u32 = 1;

pub const SHOW: u32 = 2;

/// What is done.
#[derive(Drop)]
pub enum Step {
    /// One of the two is learned, and that comes to this.
    Learn {
        what: u32,
        told: (&'static str, u32),
    },
    /// The description of the call of `f` is learned under the name of the main call, and clashes.
    Clash,
    /// An object lies at a worker.
    Place {
        what: u32,
        worker: u32,
    },
    /// A task saves its wait `j` at a worker, for an object.
    Save {
        task: u32,
        j: u32,
        worker: u32,
        refs: u32,
    },
}

/// A table with no rows, that takes so many.
pub fn open(alloc: Global, limit: u32) -> Result<Table<Spot>, Memory>
    ensures { IfOk result (λ t. t.gone ≡ []) }
{
    let table = Table::open(alloc, limit)?;
    Ok(table)
}

fn one_of(two: &Two, what: u32) -> &Named {
    if what == MAIN { &two.main } else { &two.square }
}

/// The task of a number.
pub fn task(two: &Two, what: u32) -> TaskId {
    if what == SHOW {
        TaskId::Show
    } else {
        TaskId::Of(one_of(two, what).name)
    }
}

fn told(learned: &Result<u32, Learn>) -> (&'static str, u32) {
    match learned {
        Ok(id) => ("row", *id),
        Err(Learn::Full { held }) => ("full", *held),
        Err(Learn::Clash { .. }) => ("clash", 0),
        Err(Learn::Memory) => ("memory", 0),
    }
}

/// Learns a description; nobody is dropped by that.
pub fn learn(table: &mut Table<Spot>, named: &Named) -> Result<u32, Learn>
    ensures { table.new.gone ≡ table.old.gone }
{
    table.learn(named, &Sha1Namer)
}

/// The bytes with which learning it clashes: those that are kept and those that are given.
fn clash(table: &mut Table<Spot>, named: &Named) -> Result<(Bytes, Bytes), Fail>
    ensures { table.new.gone ≡ table.old.gone }
{
    match learn(table, named) {
        Err(Learn::Clash { kept, given }) => Ok((kept, given)),
        _ => Err(Fail::from("no clash")),
    }
}

fn is_canon(alloc: Global, bytes: &Bytes, desc: &Desc1) -> Result<bool, Memory> {
    Ok(canon(alloc, desc)?.as_slice() == bytes.as_slice())
}

/// Both bytes are told, of what is held and of what was given.
fn clashes(rt: &impl Abort, alloc: Global, table: &mut Table<Spot>, two: &Two) -> Result<(), Fail>
    ensures { table.new.gone ≡ table.old.gone }
{
    let other = Named {
        name: two.main.name,
        desc: two.square.desc.copy()?,
    };
    let (kept, given) = clash(table, &other)?;
    assert!(rt; is_canon(alloc, &kept, &two.main.desc)?);
    assert!(rt; is_canon(alloc, &given, &two.square.desc)?);
    Ok(())
}

fn spot_at(worker: u32) -> Spot
    ensures { result.worker ≡ worker }
{
    Spot { worker }
}

fn place(table: &mut Table<Spot>, name: &Name, worker: u32) -> Result<(), Fail>
    requires { Here table.old.gone worker }
    ensures { table.new.gone ≡ table.old.gone }
{
    if table.find(name).is_none() {
        return Err(Fail::from("no row"));
    }
    table.add_place(name, spot_at(worker))?;
    Ok(())
}

/// Whether a number is above those of the saved waits of a task.
fn is_above(table: &Table<Spot>, task: &TaskId, j: u32) -> bool
    ensures { result ≡ true → IsAbove j (waits_of task.now table.now) }
{
    match table.last_wait(task) {
        Some(wait) => wait.j < j,
        None => true,
    }
}

fn only(alloc: Global, name: &Name) -> Result<Names, Memory> {
    let mut names = Names::new(alloc);
    names.push(*name)?;
    Ok(names)
}

/// A saved wait for one name, which it holds too.
fn wait_for(alloc: Global, j: u32, worker: u32, name: &Name) -> Result<Wait<Spot>, Memory>
    ensures number { IfOk result (λ w. w.j ≡ j) }
    ensures place { IfOk result (λ w. w.place.worker ≡ worker) }
{
    let refs = only(alloc, name)?;
    let holds = only(alloc, name)?;
    Ok(Wait {
        j,
        place: spot_at(worker),
        refs,
        holds,
    })
}

fn save(
    alloc: Global,
    table: &mut Table<Spot>,
    task: &TaskId,
    j: u32,
    worker: u32,
    name: &Name,
) -> Result<(), Fail>
    requires { Here table.old.gone worker }
    ensures { table.new.gone ≡ table.old.gone }
{
    if !is_above(table, task, j) {
        return Err(Fail::from("not above the last one"));
    }
    let wait = wait_for(alloc, j, worker, name)?;
    table.save_wait(task, wait)?;
    Ok(())
}

/// Takes a step. No worker is dropped before or by that.
pub fn act(
    rt: &impl Abort,
    alloc: Global,
    table: &mut Table<Spot>,
    two: &Two,
    step: &Step,
) -> Result<(), Fail>
    requires { table.old.gone ≡ [] }
    ensures { table.new.gone ≡ [] }
{
    match step {
        Step::Learn { what, told: want } => {
            let learned = learn(table, one_of(two, *what));
            assert!(rt; told(&learned) == *want);
            Ok(())
        }
        Step::Clash => clashes(rt, alloc, table, two),
        Step::Place { what, worker } => place(table, &one_of(two, *what).name, *worker),
        Step::Save {
            task: what,
            j,
            worker,
            refs,
        } => {
            let task = task(two, *what);
            save(alloc, table, &task, *j, *worker, &one_of(two, *refs).name)
        }
    }
}
