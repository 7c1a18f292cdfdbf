//! What a worker does with an executor's order.

ghost use Rattle.std.specs.Prelude.{◌≡◌, [], IfOk, Some, length};
ghost use Rattle.ciel_json.specs.Text.{text_of as writes};
ghost use Rattle.sky_base.specs.JobView.{job_view};
ghost use Rattle.sky_base.specs.Val.{distinct, known, refs, same_text};
ghost use Rattle.sky_base.specs.View.{view};
ghost use Rattle.sky_base.specs.declared.object.Desc1.{Desc1};
ghost use Rattle.sky_base_law.specs.Tasks.{Each, In};
ghost use Rattle.sky_base_exec.specs.Perform.{listed, made as made_by};
ghost use Rattle.ciel_task_inputs.specs.Brought.{lies_known};
ghost use Rattle.ciel_task_inputs.specs.Fetched.{TellsFetched};
ghost use Rattle.ciel_master_safe.specs.Performs.{PerformsSafely};
ghost use Rattle.ciel_store.specs.Seen.{SeatSeen};
ghost use Rattle.ciel_task_order.specs.Orders.{OrderSound};
ghost use Rattle.ciel_task_order.specs.Performs.{HasSeen, Performs};
ghost use Rattle.ciel_task_order.specs.Shop.{InputsInOrder};
ghost use Rattle.ciel_task_order.specs.Places.{PlacesSound};
ghost use Rattle.ciel_task_exec.specs.Runs.{CopiedOf, FoundSo, LostOf, SeenBy};
ghost use Rattle.ciel_task_exec.specs.declared.found.Found.{Found as FoundSeen};

use crate::found::{Found, find_inputs};
use crate::make::make;
use crate::publish::publish;
use ciel_name::name::Namer;
use ciel_store::loss::Loss;
use ciel_store::seats::{Eye, Seen};
use ciel_task_order::block::Held;
use ciel_task_order::order::Order;
use ciel_task_order::report::{End, Report};
use ciel_task_order::shop::Shop;
use sky_base::fault::Fault;
use sky_base::kit::Kit;
use sky_base::name::Name;
use sky_base::text::{Bytes, Memory, Txt};
use sky_base::value::Value;
use std::alloc::Global;
use std::sync::Wait;

/// Runs the executor of an order once on what the names in its arguments refer to, and puts its outputs on the worker's shelf. Reports
/// them in order, each with its mark, and what was copied to that shelf; or the first name in the arguments whose object lay at a worker
/// that is lost.
///
/// Answers `Memory` for want of memory. The eye is then as it was. Copies and outputs may lie on the worker's shelf, where no report names
/// them.
pub fn run_order<K: Kit, N: Namer, R: Wait>(
    rt: &R,
    alloc: Global,
    shop: &Shop<K, N>,
    order: &Order,
    executor: &Txt,
    args: &Value,
    outputs: u32,
    eye: &mut Eye,
) -> Result<Report, Memory>
    requires desc { order.now.desc ≡ Some (Desc1.Exec executor.now args.now outputs 0) }
    requires sound { OrderSound (N.digest shop.now.namer) shop.now.shelves (job_view shop.now.job).script (length (job_view shop.now.job).inputs)
        order.now }
    requires inputs { InputsInOrder (job_view shop.now.job) }
    requires eye { eye.old.of ≡ shop.now.shelves.of }
    ensures of { eye.new.of ≡ eye.old.of }
    ensures performs { IfOk result (Performs (N.digest shop.now.namer) (job_view shop.now.job) (K.gives shop.now.kit) order.now) }
    ensures places { IfOk result (PlacesSound shop.now.shelves order.now.worker (job_view shop.now.job).script) }
    ensures safely { IfOk result (PerformsSafely (N.digest shop.now.namer) shop.now.shelves (job_view shop.now.job).script order.now) }
    ensures tells { IfOk result (λ r. TellsFetched order.now.worker order.now.inputs.items (distinct same_text (refs (view args.now))) r.end
        r.copied.items) }
    ensures seen { IfOk result (λ r. SeenBy eye.new r.end) }
{
    let found = find_order(rt, alloc, shop, order, executor, args, outputs, eye)?;
    match found {
        Found::Lost(name, loss) => Ok(tell_loss(
            alloc, shop, order, executor, args, outputs, name, loss, eye,
        )),
        Found::All { inputs, copied } => {
            let made = make(alloc, &shop.kit, executor, args, outputs, &inputs)?;
            let report = tell(
                rt, alloc, shop, order, executor, args, outputs, &made, copied,
            )?;
            Ok(report)
        }
    }
}

/// Gathers what an executor's order reads.
///
/// Answers `Memory` for want of memory. The eye is then as it was. Copies that nothing names may lie on the worker's shelf.
pub fn find_order<K: Kit, N: Namer, R: Wait>(
    rt: &R,
    alloc: Global,
    shop: &Shop<K, N>,
    order: &Order,
    executor: &Txt,
    args: &Value,
    outputs: u32,
    eye: &mut Eye,
) -> Result<Found, Memory>
    requires desc { order.now.desc ≡ Some (Desc1.Exec executor.now args.now outputs 0) }
    requires sound { OrderSound (N.digest shop.now.namer) shop.now.shelves (job_view shop.now.job).script (length (job_view shop.now.job).inputs)
        order.now }
    requires eye { eye.old.of ≡ shop.now.shelves.of }
    ensures of { eye.new.of ≡ eye.old.of }
    ensures found { IfOk result (FoundSo (job_view shop.now.job).inputs order.now.inputs.items (view args.now)) }
    ensures copied { IfOk result (CopiedOf shop.now.shelves (job_view shop.now.job).inputs order.now (view args.now)) }
    ensures lost { IfOk result (λ r. LostOf r eye.new) }
{
    let found = find_inputs(
        rt,
        alloc,
        &shop.job,
        &shop.shelves,
        order.worker,
        order.inputs.as_slice(),
        args,
        eye,
    )?;
    Ok(found)
}

/// Puts the outputs of an executor's order on the worker's shelf and reports them: those that its executor gives for what the order brings
/// along, whoever made them.
///
/// Answers `Memory` for want of memory. Some of the outputs may then lie on the worker's shelf, where no report names them.
pub fn tell<K: Kit, N: Namer, R: Wait>(
    rt: &R,
    alloc: Global,
    shop: &Shop<K, N>,
    order: &Order,
    executor: &Txt,
    args: &Value,
    outputs: u32,
    made: &Result<Vec<Bytes>, Fault>,
    copied: Vec<Held>,
) -> Result<Report, Memory>
    requires desc { order.now.desc ≡ Some (Desc1.Exec executor.now args.now outputs 0) }
    requires sound { OrderSound (N.digest shop.now.namer) shop.now.shelves (job_view shop.now.job).script (length (job_view shop.now.job).inputs)
        order.now }
    requires inputs { InputsInOrder (job_view shop.now.job) }
    requires all { IfOk (listed made.now) (λ bs. length bs ≡ outputs) }
    requires made { listed made.now ≡ made_by (K.gives shop.now.kit) writes (lies_known (job_view shop.now.job).inputs order.now.inputs.items)
        executor.now (view args.now) outputs }
    requires copied { CopiedOf shop.now.shelves (job_view shop.now.job).inputs order.now (view args.now) (FoundSeen.All made.now copied) }
    ensures performs { IfOk result (Performs (N.digest shop.now.namer) (job_view shop.now.job) (K.gives shop.now.kit) order.now) }
    ensures places { IfOk result (PlacesSound shop.now.shelves order.now.worker (job_view shop.now.job).script) }
    ensures safely { IfOk result (PerformsSafely (N.digest shop.now.namer) shop.now.shelves (job_view shop.now.job).script order.now) }
    ensures tells { IfOk result (λ r. TellsFetched order.now.worker order.now.inputs.items (distinct same_text (refs (view args.now))) r.end
        r.copied.items) }
    ensures seen { IfOk result (λ r. (e : SeatSeen) → SeenBy e r.end) }
{
    let outputs = publish(
        rt,
        alloc,
        &shop.namer,
        &shop.shelves,
        order.worker,
        executor,
        args,
        outputs,
        made,
    )?;
    Ok(report(alloc, order, copied, End::Made(outputs)))
}

/// Reports the first name in the arguments whose object lay at a worker that is lost.
pub fn tell_loss<K: Kit, N: Namer>(
    alloc: Global,
    shop: &Shop<K, N>,
    order: &Order,
    executor: &Txt,
    args: &Value,
    outputs: u32,
    name: Name,
    loss: Loss,
    eye: &mut Eye,
) -> Report
    requires desc { order.now.desc ≡ Some (Desc1.Exec executor.now args.now outputs 0) }
    requires sound { OrderSound (N.digest shop.now.namer) shop.now.shelves (job_view shop.now.job).script (length (job_view shop.now.job).inputs)
        order.now }
    requires inputs { InputsInOrder (job_view shop.now.job) }
    requires eye { eye.old.of ≡ shop.now.shelves.of }
    requires found { FoundSo (job_view shop.now.job).inputs order.now.inputs.items (view args.now) (FoundSeen.Lost name loss) }
    requires lost { LostOf (FoundSeen.Lost name loss) eye.old }
    ensures eye { eye.new ≡ eye.old }
    ensures performs { Performs (N.digest shop.now.namer) (job_view shop.now.job) (K.gives shop.now.kit) order.now result }
    ensures places { PlacesSound shop.now.shelves order.now.worker (job_view shop.now.job).script result }
    ensures safely { PerformsSafely (N.digest shop.now.namer) shop.now.shelves (job_view shop.now.job).script order.now result }
    ensures tells { TellsFetched order.now.worker order.now.inputs.items (distinct same_text (refs (view args.now))) result.end
        result.copied.items }
    ensures seen { SeenBy eye.new result.end }
{
    let seen = Some(shop.shelves.show(eye));
    report(
        alloc,
        order,
        Vec::new(alloc),
        End::Missing { name, loss, seen },
    )
}

// A report of this order, with nothing spawned.
fn report(alloc: Global, order: &Order, copied: Vec<Held>, end: End) -> Report
    ensures number { result.number ≡ order.now.number }
    ensures worker { result.worker ≡ order.now.worker }
    ensures task { result.task ≡ order.now.task }
    ensures spawned { result.spawned.items ≡ [] }
    ensures copied { result.copied ≡ copied }
    ensures end { result.end ≡ end }
{
    Report {
        number: order.number,
        worker: order.worker,
        task: order.task,
        spawned: Vec::new(alloc),
        copied,
        end,
    }
}
