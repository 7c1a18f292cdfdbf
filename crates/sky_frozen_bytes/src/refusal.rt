// Why bytes are refused.

/// Why bytes are no frozen state.
#[derive(Clone, Copy, Debug, PartialEq, Eq)]
pub enum ReadFrozen {
    /// They are the bytes of no state.
    BadFrozen,
    /// Want of memory.
    Memory,
}
