//! The finder of what an order brings along.

ghost use Rattle.sky_base.specs.JobView.{job_view};
ghost use Rattle.ciel_task_inputs.specs.Brought.{lies_known};
ghost use Rattle.ciel_task_call.specs.Finds.{CanBring, IsLost};
ghost use Rattle.ciel_task_order.specs.Orders.{names_in};
ghost use Rattle.ciel_task_call.specs.Stays.{Stays, Tells, tells_next};

use crate::copied::{Copied, bring_once};
use ciel_store::loss::Loss;
use ciel_store::seats::Eye;
use ciel_store::shelves::Shelves;
use ciel_task_inputs::places::Places;
use ciel_task_order::block::Block;
use ciel_task_order::ready::ReadyJob;
use sky_base::name::Name;
use sky_base::object::Object;
use sky_base::text::Memory;
use sky_machine_through::find::Finds;
use std::alloc::Global;
use std::sync::Wait;

/// The object of this name lay at a worker that is lost.
#[derive(Drop)]
pub struct Lost {
    pub name: Name,
    pub loss: Loss,
}

/// The objects that an order brings along, by their names, for the worker that performs it; and what was copied to that worker's shelf so
/// far. Where `find` answers `Memory`, it is as `bring_once` says: the eye is as it was, and what was copied may only be dropped.
#[derive(Drop)]
pub struct Brought<'a, 'h, R> {
    pub rt: &'a R,
    pub job: &'a ReadyJob,
    pub shelves: &'a Shelves<Block>,
    pub worker: u32,
    pub held: &'a Places<'h>,
    pub eye: &'a mut Eye,
    pub copied: &'a mut Copied,
}

impl<'a, 'h, R: Wait> Finds for Brought<'a, 'h, R> {
    type Refusal = Lost;

    ghost finds = { λ b. lies_known (job_view b.job.now).inputs b.held.now };

    ghost ready = { λ b. CanBring b.shelves.now b.worker (job_view b.job.now).script (job_view b.job.now).inputs b.held.now b.eye.now
        b.copied.now };

    ghost Stays = { Stays };

    ghost stays = { λ b. record {
      eye = b.eye.ghost_name;
      copied = b.copied.ghost_name;
      of = b.eye.now.of;
      shelves = b.shelves.now;
      worker = b.worker;
      script = (job_view b.job.now).script;
      inputs = (job_view b.job.now).inputs;
      held = b.held.now;
    } };

    ghost Told = { Tells };

    ghost told = { λ b. record { worker = b.worker; held = b.held.now; names = names_in b.copied.now.items.items } };

    ghost notes = { tells_next };

    ghost refuses = { λ b r. IsLost b.held.now r.name r.loss b.eye.now };

    fn has(&self, name: &Name) -> bool {
        self.held.find(name).is_some()
    }

    fn find(&mut self, _alloc: Global, name: &Name) -> Result<Result<Object, Lost>, Memory> {
        let brought = bring_once(
            self.rt,
            self.job,
            self.shelves,
            self.worker,
            self.held,
            name,
            self.eye,
            self.copied,
        )?;
        match brought {
            Ok(object) => Ok(Ok(object)),
            Err(gone) => Ok(Err(Lost {
                name: *name,
                loss: gone.loss,
            })),
        }
    }
}
