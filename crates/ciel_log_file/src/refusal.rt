//! What a log's file comes to, and why it isn't replayed.

use ciel_master::stop::RunEnd;
use ciel_task_order::order::Order;
use sky_base::text::Memory;

/// What a log came to.
#[derive(Drop)]
pub struct Replayed {
    /// How many bytes its whole records have; 0 where the header is cut.
    pub whole: u64,
    /// The orders that are out, in order of their numbers.
    pub out: Vec<Order>,
    /// The end of the run, where the log has one.
    pub end: Option<RunEnd>,
    /// The state of the generator that chooses tasks and workers, with which the run goes on.
    pub draws: u64,
}

/// Why a log isn't replayed.
#[derive(Clone, Copy, PartialEq, Eq, Debug, Drop)]
pub enum LogRefusal {
    /// It is the log of another job, or of another plan.
    OtherJob,
    /// No run writes the record that begins at this byte, behind those before it.
    BadLog { at: u64 },
    /// Want of memory.
    Memory,
}

impl From<Memory> for LogRefusal {
    ghost use Rattle.std.specs.Prelude.{◌≡◌};
    ghost use Rattle.ciel_log_file.specs.declared.refusal.LogRefusal.{LogRefusal};

    ghost from_gives = { λ _ e. e ≡ LogRefusal.Memory };

    fn from(_refusal: Memory) -> LogRefusal {
        LogRefusal::Memory
    }
}
