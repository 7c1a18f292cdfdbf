//! What a run begins with: a shop with empty shelves, a master that has started nothing, and an eye for each worker.

ghost use Rattle.std.specs.Prelude.{◌≡◌, ◌≤◌, ◌<◌, ◌^◌, ℕ, [], IfOk, length};
ghost use Rattle.std.specs.Arc.{arc_value};
ghost use Rattle.sky_base.specs.JobView.{job_view};
ghost use Rattle.sky_base.specs.Val.{no_pairs, no_vals};
ghost use Rattle.sky_base.specs.declared.object.Desc1.{Desc1};
ghost use Rattle.ciel_crew_channels.specs.Onward.{IsRead};
ghost use Rattle.ciel_master_board.specs.Reports.{IsNamed};
ghost use Rattle.ciel_journal.specs.Job.{Each};
ghost use Rattle.ciel_task_order.specs.Shop.{InputsInOrder};
ghost use Rattle.ciel_run_job.specs.Opened.{IsOpened, ShopOf};

use ciel_name::name::Namer;
use ciel_name::object::canon;
use ciel_run_drive::master::Master;
use ciel_run_drive::plan::RunPlan;
use ciel_store::seats::Eye;
use ciel_store::shelves::Shelves;
use ciel_task_order::ready::ReadyJob;
use ciel_task_order::shop::Shop;
use sky_base::job::Job;
use sky_base::object::{Desc1, Named};
use sky_base::text::{Memory, Txt};
use sky_base::value::{Pairs, Vals};
use std::alloc::Global;
use std::sync::Arc;

/// What a run begins with.
#[derive(Drop)]
pub struct Opened<K, N: Namer> {
    pub shop: Arc<Shop<K, N>, Global>,
    pub master: Master<K, N>,
    pub eyes: Vec<Eye>,
}

/// The main call, with its name.
fn main_call<N: Namer>(alloc: Global, namer: &N) -> Result<Named, Memory>
    ensures named { IfOk result (IsNamed (N.digest namer.now)) }
    ensures main { IfOk result (λ n. n.desc ≡ Desc1.Call [] no_pairs no_vals) }
{
    let fun = Txt::new(alloc, "")?;
    let caught = Pairs::new(alloc);
    let args = Vals::new(alloc);
    let desc = Desc1::Call { fun, caught, args };
    let bytes = canon(alloc, &desc)?;
    let name = namer.name(bytes.as_slice());
    Ok(Named { name, desc })
}

/// A shop with this job and empty shelves, its master, and its workers' eyes.
///
/// Answers `Memory` for want of memory.
pub fn open<K: Drop, N: Namer + Drop>(
    alloc: Global,
    job: Job,
    kit: K,
    namer: N,
    plan: RunPlan,
) -> Result<Opened<K, N>, Memory>
    requires workers { (0 < plan.workers) × (plan.workers ≤ 64) }
    requires losses { Each (λ (loss : ℕ × ℕ). loss.1 < plan.workers) plan.losses }
    requires keys { length job.script.keys < 2 ^ 32 }
    ensures shop { IfOk result (λ o. ShopOf job kit namer (arc_value o.shop)) }
    ensures opened { IfOk result (λ o. IsOpened N.digest plan (arc_value o.shop) o.master o.eyes.items) }
{
    let workers = plan.workers;
    let Ok((shelves, marker, eyes)) = Shelves::new(alloc, workers) else {
        return Err(Memory);
    };
    let main = main_call(alloc, &namer)?;
    let job = ReadyJob::new(alloc, job)?;
    let shop = Shop {
        job,
        kit,
        namer,
        shelves,
    };
    let Ok(shop) = Arc::new(alloc, shop) else {
        return Err(Memory);
    };
    let Ok(shared) = Arc::try_clone(&shop) else {
        return Err(Memory);
    };
    let master = Master::open(alloc, shared, marker, main, plan)?;
    Ok(Opened { shop, master, eyes })
}
