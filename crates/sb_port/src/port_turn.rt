//! What a port answers to its turn.

/// What a port did in its turn.
#[derive(Clone, Copy, Debug, PartialEq, Eq)]
pub enum PortTurn {
    /// It sent an item, or let go what it held for merging.
    Moved,
    /// It owed nothing, and let nothing go.
    Clear,
    /// It owed an item, and the ring is full: `sent` items were sent, `taken` of them are known to have been taken.
    Full { sent: u32, taken: u32 },
}
