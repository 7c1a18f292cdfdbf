// Two gates that wait for each other, so that a test can see that two tasks ran at one time.

ghost use Rattle.std.specs.Prelude.{◌≡◌, None};

use crate::gate::Gate;
use once_cell::race::OnceBool;
use sky_base::object::TaskId;
use sky_base::text::Memory;
use std::alloc::Global;
use std::sync::Arc;

// Whether each of the two tasks was entered. A flag is set once.
#[derive(Drop)]
struct Flags {
    first: OnceBool,
    second: OnceBool,
}

impl Flags {
    // Looks at both flags until they are set, a number of times at most.
    fn are_set_within(&self, limit: u32) -> bool {
        for _ in 0..limit {
            if self.first.get().is_some() && self.second.get().is_some() {
                return true;
            }
        }
        false
    }
}

/// One of two gates of two tasks: who enters one of the two waits until the other was entered, for a number of
/// turns at most. It tells no list.
#[derive(Drop)]
pub struct Meeting {
    first: TaskId,
    second: TaskId,
    limit: u32,
    flags: Arc<Flags>,
    met: bool,
}

impl Meeting {
    /// Two gates of these two tasks, and the number of turns that each waits.
    pub fn pair(
        alloc: Global,
        first: TaskId,
        second: TaskId,
        limit: u32,
    ) -> Result<(Meeting, Meeting), Memory> {
        let flags = Flags {
            first: OnceBool::new(),
            second: OnceBool::new(),
        };
        let Ok(flags) = Arc::new(alloc, flags) else {
            return Err(Memory);
        };
        let Ok(other) = Arc::try_clone(&flags) else {
            return Err(Memory);
        };
        let one = Meeting::of(&first, &second, limit, flags);
        Ok((one, Meeting::of(&first, &second, limit, other)))
    }

    fn of(first: &TaskId, second: &TaskId, limit: u32, flags: Arc<Flags>) -> Meeting {
        Meeting {
            first: *first,
            second: *second,
            limit,
            flags,
            met: false,
        }
    }

    /// Whether both tasks were entered before the turns were over, when one of them was entered here last. It takes
    /// no memory.
    pub fn met(&self) -> bool {
        self.met
    }
}

impl Gate for Meeting {
    ghost entered = { λ _. None };

    fn enter(&mut self, task: &TaskId) {
        if *task == self.first {
            let _ = self.flags.first.set(true);
        } else if *task == self.second {
            let _ = self.flags.second.set(true);
        } else {
            return;
        }
        self.met = self.flags.are_set_within(self.limit);
    }

    fn leave(&mut self, _task: &TaskId) {}
}
