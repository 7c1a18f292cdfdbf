//! From which waits each task was started.

ghost use Rattle.std.specs.Prelude.{◌≡◌, ◌&&◌, ◌||◌, ℕ, List, IfOk, false, nat_eq};
ghost use Rattle.std.specs.BTreeSet.{contains};
ghost use Rattle.std.specs.Ordering.{nat_cmp};
ghost use Rattle.sky_base.specs.declared.object.TaskId.{TaskId};
ghost use Rattle.sky_base.specs.Val.{same_text};
ghost use Rattle.ciel_look_tasks.specs.Origins.{has_origin, origin_cmp};
ghost use Rattle.ciel_look_tasks.specs.Tasks.{same_task};

use sky_base::name::Name;
use sky_base::object::TaskId;
use sky_base::text::Memory;
use std::alloc::Global;
use std::collections::BTreeSet;

/// The waits that the root task was started from, and those of each other task.
#[derive(Drop)]
pub struct Origins {
    pub show: BTreeSet<u32>,
    pub others: BTreeSet<(Name, u32)>,
}

impl Origins {
    /// None.
    pub fn new(alloc: Global) -> Origins
        ensures none { (t : TaskId) (w : ℕ) → has_origin result t w ≡ false }
    {
        Origins {
            show: BTreeSet::new(alloc),
            others: BTreeSet::new(alloc),
        }
    }

    /// The task is started from this wait; whether it had been before.
    pub fn note(&mut self, id: &TaskId, wait: u32) -> Result<bool, Memory>
        ensures was { IfOk result (λ was. was ≡ has_origin self.old id.now wait) }
        ensures noted { IfOk result (λ _. (t : TaskId) (w : ℕ)
            → has_origin self.new t w ≡ ((same_task t id.now && nat_eq wait w) || has_origin self.old t w)) }
    {
        match id {
            TaskId::Show => {
                let was = put_wait(&mut self.show, wait)?;
                Ok(was)
            }
            TaskId::Of(name) => {
                let was = put_origin(&mut self.others, *name, wait)?;
                Ok(was)
            }
        }
    }
}

/// One wait more; whether it was there.
fn put_wait(waits: &mut BTreeSet<u32>, wait: u32) -> Result<bool, Memory>
    ensures was { IfOk result (λ was. was ≡ contains nat_cmp waits.old wait) }
    ensures put { IfOk result (λ _. (w : ℕ) → contains nat_cmp waits.new w ≡ (nat_eq wait w || contains nat_cmp waits.old w)) }
{
    match waits.insert(wait) {
        Ok(is_new) => Ok(!is_new),
        Err(_) => Err(Memory),
    }
}

/// One name with a wait more; whether it was there.
fn put_origin(origins: &mut BTreeSet<(Name, u32)>, name: Name, wait: u32) -> Result<bool, Memory>
    ensures was { IfOk result (λ was. was ≡ contains origin_cmp origins.old (name, wait)) }
    ensures put { IfOk result (λ _. (n : List ℕ) (w : ℕ)
        → contains origin_cmp origins.new (n, w) ≡ ((same_text n name && nat_eq wait w) || contains origin_cmp origins.old (n, w))) }
{
    match origins.insert((name, wait)) {
        Ok(is_new) => Ok(!is_new),
        Err(_) => Err(Memory),
    }
}
