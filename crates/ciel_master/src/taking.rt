//! What a start and the end of a report change.

ghost use Rattle.std.specs.Prelude.{◌≡◌, ◌+◌, ◌≤◌, ◌<◌, ◌^◌, ◌++◌, ◌∷◌, [], IfOk, OnErr, OnOk, length, map, vec_capacity};
ghost use Rattle.ciel_master_board.specs.Moves.{with_copies, with_outputs};
ghost use Rattle.ciel_master_board.specs.Reports.{copy_names, made_keys};
ghost use Rattle.ciel_journal.specs.Entries as j;
ghost use Rattle.ciel_task_order.specs.declared.report.End.{End};
ghost use Rattle.ciel_master.specs.Taking.{CanTake, CopiesPlace, OutputsPlace, entry_for, is_last, now_of, table_after};
ghost use Rattle.ciel_master_bring.specs.Brings.{worker_of};
ghost use Rattle.ciel_master.specs.Views.{entry_view, kept_view};
ghost use Rattle.ciel_want_ready.specs.Seen.{with_out, with_table};
ghost use Rattle.ciel_task_order.specs.Views.{copies_view, how_view, output_view};
ghost use Rattle.ciel_table.specs.Changes.{saved};
ghost use Rattle.ciel_table.specs.Seen.{waits_of};
ghost use Rattle.ciel_table.specs.Sound.{Here, IsAbove};

use crate::entry::Entry;
use crate::orders::OrderOut;
use crate::placing::{keys_of, names_of, place_copies, place_outputs};
use crate::stop::Now;
use ciel_store::shelves::Place;
use ciel_table::wait::Wait;
use ciel_task_order::block::{Block, Held};
use ciel_task_order::report::{End, Made};
use ciel_want_ready::ready::Ready;
use sky_base::object::TaskId;
use sky_base::text::Memory;
use sky_state::shown::Shown;
use std::alloc::Global;

/// Writes an entry, and makes room for so many more. After `Memory` the journal is as it was, with no less room.
fn write(journal: &mut Vec<Entry>, entry: Entry, room: usize) -> Result<(), Memory>
    requires few { room < 2 ^ 32 }
    ensures written { OnOk result (map entry_view journal.new.items ≡ map entry_view journal.old.items ++ entry_view entry ∷ []) }
    ensures room { OnOk result (length journal.new.items + room ≤ vec_capacity journal.new) }
    ensures kept { OnErr result (journal.new.items ≡ journal.old.items) }
    ensures wide { vec_capacity journal.old ≤ vec_capacity journal.new }
{
    if journal.reserve(room + 1).is_err() {
        return Err(Memory);
    }
    journal.push_reserved(entry);
    Ok(())
}

/// An order is out, and its task with it, and the journal has it, with room for so many entries more. After `Memory` all are as they
/// were.
pub(crate) fn begin(
    ready: &mut Ready<Place<Block>>,
    orders: &mut Vec<OrderOut>,
    journal: &mut Vec<Entry>,
    order: OrderOut,
    room: usize,
) -> Result<(), Memory>
    requires few { room < 2 ^ 32 }
    ensures ready { OnOk result (ready.new ≡ with_out ready.old order.task) }
    ensures orders { OnOk result (map kept_view orders.new.items ≡ map kept_view orders.old.items ++ kept_view order ∷ []) }
    ensures journal { OnOk result (map entry_view journal.new.items ≡ map entry_view journal.old.items
        ++ entry_view (Entry.Start order.number order.worker order.task order.from) ∷ []) }
    ensures room { OnOk result (length journal.new.items + room ≤ vec_capacity journal.new) }
    ensures still { OnErr result (ready.new ≡ ready.old) }
    ensures kept { OnErr result (orders.new.items ≡ orders.old.items) }
    ensures unwritten { OnErr result (journal.new.items ≡ journal.old.items) }
    ensures wide { vec_capacity journal.old ≤ vec_capacity journal.new }
{
    if orders.reserve(1).is_err() || journal.reserve(room + 1).is_err() {
        return Err(Memory);
    }
    ready.start(&order.task)?;
    let entry = Entry::Start {
        number: order.number,
        worker: order.worker,
        task: order.task,
        from: order.from,
    };
    journal.push_reserved(entry);
    orders.push_reserved(order);
    Ok(())
}

/// A worker more is lost, and the journal has it. There is room in both.
pub(crate) fn note_loss(lost: &mut Vec<u32>, journal: &mut Vec<Entry>, worker: u32, after: u64)
    requires place { length lost.old.items < vec_capacity lost.old }
    requires line { length journal.old.items < vec_capacity journal.old }
    ensures lost { lost.new.items ≡ lost.old.items ++ worker ∷ [] }
    ensures written { map entry_view journal.new.items ≡ map entry_view journal.old.items ++ entry_view (Entry.Lost worker after) ∷ [] }
    ensures places { vec_capacity lost.new ≡ vec_capacity lost.old }
    ensures lines { vec_capacity journal.new ≡ vec_capacity journal.old }
{
    journal.push_reserved(Entry::Lost { worker, after });
    lost.push_reserved(worker);
}

/// The task came to its end: its outputs and copies are placed, and the journal has it. After `Memory` the journal is as it was.
fn take_made(
    alloc: Global,
    ready: &mut Ready<Place<Block>>,
    journal: &mut Vec<Entry>,
    number: u64,
    made: &[Made],
    copied: &[Held],
    room: usize,
) -> Result<(), Memory>
    requires few { room < 2 ^ 32 }
    requires made { OutputsPlace ready.old.table made.now }
    requires copied { CopiesPlace ready.old.table copied.now }
    ensures ready { OnOk result (ready.new ≡ with_table ready.old
        (with_copies (copies_view copied.now) (with_outputs (map output_view made.now) ready.old.table))) }
    ensures journal { OnOk result (map entry_view journal.new.items ≡ map entry_view journal.old.items
        ++ j.Entry.Done number (made_keys (map output_view made.now)) (copy_names (copies_view copied.now)) ∷ []) }
    ensures room { OnOk result (length journal.new.items + room ≤ vec_capacity journal.new) }
    ensures kept { OnErr result (journal.new.items ≡ journal.old.items) }
{
    let keys = keys_of(alloc, made)?;
    let names = names_of(alloc, copied)?;
    place_outputs(ready, made)?;
    place_copies(ready, copied)?;
    let entry = Entry::Done {
        number,
        made: keys,
        copied: names,
    };
    write(journal, entry, room)?;
    Ok(())
}

/// The task waits: its stack is saved, and the journal has it. After `Memory` the journal is as it was.
fn take_saved(
    ready: &mut Ready<Place<Block>>,
    journal: &mut Vec<Entry>,
    order: &OrderOut,
    wait: Wait<Place<Block>>,
    mark: [u8; 20],
    room: usize,
) -> Result<(), Memory>
    requires few { room < 2 ^ 32 }
    requires later { IsAbove wait.j (waits_of order.now.task ready.old.table) }
    requires here { Here ready.old.table.gone (worker_of wait.place) }
    ensures ready { OnOk result (ready.new ≡ with_table ready.old (saved worker_of order.now.task wait ready.old.table)) }
    ensures journal { OnOk result (map entry_view journal.new.items ≡ map entry_view journal.old.items
        ++ j.Entry.Saved order.now.number wait.j mark ∷ []) }
    ensures room { OnOk result (length journal.new.items + room ≤ vec_capacity journal.new) }
    ensures kept { OnErr result (journal.new.items ≡ journal.old.items) }
{
    let entry = Entry::Saved {
        number: order.number,
        j: wait.j,
        mark,
    };
    ready.save_wait(&order.task, wait)?;
    write(journal, entry, room)?;
    Ok(())
}

/// The answer of a run.
fn answer(shown: Shown) -> Now
    ensures { result ≡ now_of (End.Shown shown) }
{
    match shown {
        Shown::Text(text) => Now::Answer(text),
        Shown::Fault(fault) => Now::Fault(fault),
    }
}

/// What the end of a report changes. After `Memory` the journal is as it was.
pub(crate) fn take_end(
    alloc: Global,
    ready: &mut Ready<Place<Block>>,
    journal: &mut Vec<Entry>,
    order: &OrderOut,
    copied: &[Held],
    end: End,
    room: usize,
) -> Result<Now, Memory>
    requires few { room < 2 ^ 32 }
    requires can { CanTake order.now.task ready.old.table copied.now end }
    ensures ready { OnOk result (ready.new ≡ with_table ready.old (table_after order.now.task (how_view copied.now end) ready.old.table)) }
    ensures journal { OnOk result (map entry_view journal.new.items ≡ map entry_view journal.old.items
        ++ entry_for order.now.number (how_view copied.now end) ∷ []) }
    ensures room { OnOk result (length journal.new.items + room ≤ vec_capacity journal.new) }
    ensures kept { OnErr result (journal.new.items ≡ journal.old.items) }
    ensures now { IfOk result (λ now. now ≡ now_of end) }
{
    match end {
        End::Made(made) => {
            take_made(
                alloc,
                ready,
                journal,
                order.number,
                made.as_slice(),
                copied,
                room,
            )?;
            Ok(Now::Goes)
        }
        End::Shown(shown) => {
            take_made(alloc, ready, journal, order.number, &[], copied, room)?;
            Ok(answer(shown))
        }
        End::Saved {
            frozen,
            j,
            refs,
            holds,
            mark,
        } => {
            let wait = Wait {
                j,
                place: frozen,
                refs,
                holds,
            };
            take_saved(ready, journal, order, wait, mark, room)?;
            Ok(Now::Goes)
        }
        End::Missing { name, loss, .. } => {
            let entry = Entry::Missed {
                number: order.number,
                name,
                lost: loss.number,
            };
            write(journal, entry, room)?;
            Ok(Now::Goes)
        }
    }
}

/// Whether the run ends with this end of a task.
pub(crate) fn is_last(task: &TaskId, end: &End, copied: &[Held]) -> bool
    ensures { result ≡ is_last task.now (how_view copied.now end.now) }
{
    match end {
        End::Made(_) | End::Shown(_) => match task {
            TaskId::Show => true,
            TaskId::Of(_) => false,
        },
        _ => false,
    }
}
