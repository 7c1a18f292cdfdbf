//! How a log stands.

/// How a log stands: whether all records were put behind it, or what came first.
#[derive(Clone, Copy, PartialEq, Eq, Debug)]
pub enum LogState {
    /// Every record was.
    Whole,
    /// The keeper failed at one.
    Failed,
    /// One would have gone past the most that a log has; `held` is how many bytes it has.
    Full { held: u64 },
    /// There was no memory for one.
    Memory,
}
