//! What comes of a report, and of a run.

use ciel_table::refusal::Learn;
use sky_base::fault::Fault;
use sky_base::names::Names;
use sky_base::object::Desc1;
use sky_base::text::{Bytes, Memory};

/// What comes of a report that is taken.
#[derive(Drop)]
pub enum Now {
    /// The run goes on.
    Goes,
    /// The root task has its answer, with which the run ends.
    Answer(Bytes),
    /// It has a fault as its answer.
    Fault(Fault),
}

/// Why a report isn't taken. The journal is then as it was, and only the journal may be asked. But for want of memory nothing that the
/// report made is placed; after `Memory` a part of it may be.
#[derive(Drop)]
pub enum Stop {
    /// The first spawned description that isn't learned has the name of another one: the canonical bytes that are kept, and
    /// those given.
    NameClash { kept: Bytes, given: Bytes },
    /// It is new, and so many descriptions are held, which is the limit.
    TooMany { held: u32, given: Desc1 },
    /// Want of memory.
    Memory,
}

/// How a run ends.
#[derive(Drop)]
pub enum RunEnd {
    /// The root task has its answer.
    Answer(Bytes),
    /// It has a fault as its answer.
    Fault(Fault),
    /// The tasks of what has these names wait for one another: the job has no answer.
    Endless(Names),
    /// So many descriptions are held, which is the limit, and this one is new.
    TooMany { held: u32, given: Desc1 },
    /// Each worker is lost.
    AllLost,
    /// A description has the name of another one: the canonical bytes that are kept, and those given.
    NameClash { kept: Bytes, given: Bytes },
    /// Want of memory.
    Memory,
}

impl From<Memory> for Stop {
    ghost use Rattle.std.specs.Prelude.{◌≡◌};
    ghost use Rattle.ciel_master.specs.declared.stop.Stop.{Stop};

    ghost from_gives = { λ _ e. e ≡ Stop.Memory };

    fn from(_refusal: Memory) -> Stop {
        Stop::Memory
    }
}
