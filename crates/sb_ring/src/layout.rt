//! Where the words of a ring stand in its table.

/// So many words a slot has.
pub(crate) const SLOT_WIDTH: usize = 8;

/// The word with the count of the items published.
pub(crate) const TAIL_WORD: usize = 0;

/// The word with the count of the items received. It is 64 bytes away from every word that the producer stores.
pub(crate) const HEAD_WORD: usize = 8;

/// The first word of the first slot.
pub(crate) const SLOTS_WORD: usize = 16;

/// So many items at most are published by one store of the tail.
pub(crate) const BATCH_SIZE: u32 = 8;
