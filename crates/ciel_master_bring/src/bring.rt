//! What an order brings along: what its task holds where it goes on and is live, each with a place at the order's worker, if there
//! is one, else at the least worker that has one.

ghost use Rattle.std.specs.Prelude.{◌≡◌, ◌<◌, ◌^◌, ◌++◌, ◌∷◌, [], IfOk, MatchOption, None, OnOk, Some, length, map};
ghost use Rattle.std.specs.Option.{option_map};
ghost use Rattle.sky_base.specs.Val.{pairs_refs, refs, vals_refs};
ghost use Rattle.sky_base.specs.View.{view};
ghost use Rattle.ciel_master_board.specs.Board.{brought, key_number, least_place, lesser, place_at, place_for, spot_for, spot_in, stack_at, start_refs};
ghost use Rattle.ciel_master_board.specs.Board.{wait_number, with_spot};
ghost use Rattle.ciel_master_bring.specs.Brings.{first_held_by, order_at, row_for, worker_of};
ghost use Rattle.ciel_task_order.specs.Views.{brought_view, order_view, spot_view};
ghost use Rattle.ciel_table.specs.Seen.{row_named};

use ciel_store::shelves::Place;
use ciel_table::row::Row;
use ciel_table::table::Table;
use ciel_table::wait::Wait;
use ciel_task_order::block::{Block, Held, Spot};
use ciel_task_order::order::Order;
use sky_base::name::Name;
use sky_base::names::Names;
use sky_base::object::{Desc1, TaskId};
use sky_base::text::{Memory, Txt};
use sky_base::value::{Pairs, Vals, Value};
use std::alloc::Global;

/// The row of a name.
fn row_named<'a>(table: &'a Table<Place<Block>>, name: &Name) -> Option<&'a Row<Place<Block>>>
    ensures { MatchOption result (row_named name.now table.now ≡ None) (λ r. row_named name.now table.now ≡ Some r.now) }
{
    match table.find(name) {
        Some(id) => Some(table.row(id)),
        None => None,
    }
}

/// The first place at a worker.
fn place_at(worker: u32, places: &[Place<Block>]) -> Option<Place<Block>>
    ensures { result ≡ place_at worker_of worker places.now }
{
    let mut best = None;
    let mut i = places.len();
    while i > 0 {
        i -= 1;
        let place = &places[i];
        if worker == place.worker() {
            best = Some(place.share());
        }
    }
    best
}

/// The one of two at the lesser worker; of equal ones the first.
fn lesser(place: &Place<Block>, best: Option<Place<Block>>) -> Option<Place<Block>>
    ensures { result ≡ lesser worker_of place.now best }
{
    match best {
        None => Some(place.share()),
        Some(other) => {
            if other.worker() < place.worker() {
                Some(other)
            } else {
                Some(place.share())
            }
        }
    }
}

/// A place at the least worker.
fn least_place(places: &[Place<Block>]) -> Option<Place<Block>>
    ensures { result ≡ least_place worker_of places.now }
{
    let mut best = None;
    let mut i = places.len();
    while i > 0 {
        i -= 1;
        best = lesser(&places[i], best);
    }
    best
}

/// A place at the worker itself, if there is one, else one at the least worker.
fn place_for(worker: u32, places: &[Place<Block>]) -> Option<Place<Block>>
    ensures { result ≡ place_for worker_of worker places.now }
{
    match place_at(worker, places) {
        Some(place) => Some(place),
        None => least_place(places),
    }
}

/// The number of a key.
fn key_number(keys: &[Txt], key: &Txt) -> Option<u32>
    requires few { length keys.now < 2 ^ 32 }
    ensures { result ≡ key_number keys.now key.now }
{
    let mut best = None;
    let mut i = keys.len();
    while i > 0 {
        i -= 1;
        if *key == keys[i] {
            best = Some(i as u32);
        }
    }
    best
}

/// Where the object of a row is for this worker, if it is live.
fn spot_in(keys: &[Txt], worker: u32, row: &Row<Place<Block>>) -> Option<Spot>
    requires few { length keys.now < 2 ^ 32 }
    ensures { option_map spot_view result ≡ spot_in worker_of keys.now worker row.now.desc row.now.places }
{
    match &row.desc {
        Desc1::Input { key } => match key_number(keys, key) {
            Some(number) => Some(Spot::Input(number)),
            None => None,
        },
        _ => match place_for(worker, row.places.as_slice()) {
            Some(place) => Some(Spot::Shelf(place)),
            None => None,
        },
    }
}

/// A row that may have this name: this one, or else the one that has it.
fn near_of(table: &Table<Place<Block>>, near: u32, name: &Name) -> u32 {
    if near < table.len() && table.row(near).name == *name {
        return near;
    }
    match table.find(name) {
        Some(id) => id,
        None => near,
    }
}

/// The row of a name, which is looked for at this row first.
fn row_near<'a>(
    table: &'a Table<Place<Block>>,
    near: u32,
    name: &Name,
) -> Option<&'a Row<Place<Block>>>
    ensures { MatchOption result (row_named name.now table.now ≡ None) (λ r. row_named name.now table.now ≡ Some r.now) }
{
    if near < table.len() {
        let row = table.row(near);
        if row.name == *name {
            return Some(row);
        }
    }
    row_named(table, name)
}

/// Where the object of a name is for this worker, if it is live. Its row is looked for at this one first.
fn spot_for(
    keys: &[Txt],
    worker: u32,
    table: &Table<Place<Block>>,
    near: u32,
    name: &Name,
) -> Option<Spot>
    requires few { length keys.now < 2 ^ 32 }
    ensures { option_map spot_view result ≡ spot_for worker_of keys.now worker table.now name.now }
{
    match row_near(table, near, name) {
        Some(row) => spot_in(keys, worker, row),
        None => None,
    }
}

/// Puts a name at the end, if there is a spot for it.
fn push_spot(inputs: &mut Vec<Held>, name: &Name, spot: Option<Spot>) -> Result<(), Memory>
    ensures { OnOk result (map brought_view inputs.new.items ≡ map brought_view inputs.old.items
        ++ with_spot worker_of name.now (option_map spot_view spot) []) }
{
    let Some(at) = spot else {
        return Ok(());
    };
    let held = Held { name: *name, at };
    match inputs.push(held) {
        Ok(()) => Ok(()),
        Err(_) => Err(Memory),
    }
}

/// Of these names those that are live, each with where its object is for this worker.
fn brought(
    alloc: Global,
    keys: &[Txt],
    worker: u32,
    table: &Table<Place<Block>>,
    names: &[Name],
) -> Result<Vec<Held>, Memory>
    requires few { length keys.now < 2 ^ 32 }
    ensures { IfOk result (λ hs. map brought_view hs.items ≡ brought worker_of keys.now worker table.now names.now) }
{
    let mut inputs = Vec::new(alloc);
    let mut near = 0;
    for i in 0..names.len() {
        near = near_of(table, near, &names[i]);
        let spot = spot_for(keys, worker, table, near, &names[i]);
        near = near.saturating_add(1);
        push_spot(&mut inputs, &names[i], spot)?;
    }
    Ok(inputs)
}

/// A list of all that a function captured and of all arguments.
fn both(alloc: Global, caught: &Pairs, args: &Vals) -> Result<Value, Memory>
    ensures { IfOk result (λ v. refs (view v) ≡ pairs_refs caught.now ++ vals_refs args.now) }
{
    let mut values = Vals::new(alloc);
    values.push(Value::Dict(caught.copy()?))?;
    values.push(Value::List(args.copy()?))?;
    Ok(Value::List(values))
}

/// The names that stand inside a description, each once.
fn start_refs(alloc: Global, desc: &Desc1) -> Result<Names, Memory>
    ensures { IfOk result (λ ns. ns ≡ start_refs desc.now) }
{
    match desc {
        Desc1::Call { caught, args, .. } => {
            let values = both(alloc, caught, args)?;
            let names = values.refs(alloc)?;
            Ok(names)
        }
        Desc1::Exec { args, .. } => {
            let names = args.refs(alloc)?;
            Ok(names)
        }
        Desc1::Input { .. } => Ok(Names::new(alloc)),
    }
}

/// One name.
fn only(alloc: Global, name: &Name) -> Result<Names, Memory>
    ensures { IfOk result (λ ns. ns ≡ name.now ∷ []) }
{
    let mut names = Names::new(alloc);
    names.push(*name)?;
    Ok(names)
}

/// The row of a task's name; none for the root task.
fn row_for<'a>(table: &'a Table<Place<Block>>, task: &TaskId) -> Option<&'a Row<Place<Block>>>
    ensures { MatchOption result (row_for task.now table.now ≡ None) (λ r. row_for task.now table.now ≡ Some r.now) }
{
    match task {
        TaskId::Show => None,
        TaskId::Of(name) => row_named(table, name),
    }
}

/// What a task holds at its start, by the row of its name.
fn first_held(
    alloc: Global,
    main: &Name,
    task: &TaskId,
    row: Option<&Row<Place<Block>>>,
) -> Result<Names, Memory>
    ensures { IfOk result (λ ns. ns ≡ first_held_by main.now task.now (option_map (λ r. r.now) row.entry)) }
{
    match task {
        TaskId::Show => {
            let names = only(alloc, main)?;
            Ok(names)
        }
        TaskId::Of(_) => match row {
            Some(row) => {
                let names = start_refs(alloc, &row.desc)?;
                Ok(names)
            }
            None => Ok(Names::new(alloc)),
        },
    }
}

/// The description of a row, if there is one.
fn desc_of(row: Option<&Row<Place<Block>>>) -> Result<Option<Desc1>, Memory>
    ensures { IfOk result (λ d. d ≡ option_map (λ r. r.now.desc) row.entry) }
{
    match row {
        Some(row) => Ok(Some(row.desc.copy()?)),
        None => Ok(None),
    }
}

/// From which wait a task goes on, and where its stack is; at its start from 0, without one.
fn goes_on(wait: Option<&Wait<Place<Block>>>) -> (u32, Option<Place<Block>>)
    ensures from { result.0 ≡ wait_number (option_map (λ w. w.now) wait.entry) }
    ensures stack { result.1 ≡ stack_at (option_map (λ w. w.now) wait.entry) }
{
    match wait {
        None => (0, None),
        Some(wait) => (wait.j, Some(wait.place.share())),
    }
}

/// What a task at its start holds and is live, by the row of its name.
fn brought_first(
    alloc: Global,
    keys: &[Txt],
    worker: u32,
    main: &Name,
    table: &Table<Place<Block>>,
    task: &TaskId,
    row: Option<&Row<Place<Block>>>,
) -> Result<Vec<Held>, Memory>
    requires few { length keys.now < 2 ^ 32 }
    ensures { IfOk result (λ hs. map brought_view hs.items
        ≡ brought worker_of keys.now worker table.now (first_held_by main.now task.now (option_map (λ r. r.now) row.entry))) }
{
    let names = first_held(alloc, main, task, row)?;
    let inputs = brought(alloc, keys, worker, table, names.as_slice())?;
    Ok(inputs)
}

/// The order of a task at a worker, with this number: it goes on from the task's last saved wait, and brings along what the task holds there
/// and is live. The names of the job's inputs are `keys`.
///
/// Answers `Memory` for want of memory.
pub fn order_at(
    alloc: Global,
    keys: &[Txt],
    main: &Name,
    table: &Table<Place<Block>>,
    number: u64,
    task: &TaskId,
    worker: u32,
) -> Result<Order, Memory>
    requires few { length keys.now < 2 ^ 32 }
    ensures order { IfOk result (λ o. order_view o ≡ order_at keys.now main.now table.now number task.now worker) }
{
    let row = row_for(table, task);
    let wait = table.last_wait(task);
    let desc = desc_of(row)?;
    let inputs = match wait {
        Some(wait) => brought(alloc, keys, worker, table, wait.holds.as_slice())?,
        None => brought_first(alloc, keys, worker, main, table, task, row)?,
    };
    let resumed = goes_on(wait);
    Ok(Order {
        number,
        worker,
        task: *task,
        desc,
        main: *main,
        from: resumed.0,
        saved: resumed.1,
        inputs,
    })
}
