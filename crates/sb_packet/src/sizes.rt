//! The sizes that packets, pages and addresses have.

/// The bytes of a packet's body, which are the most that it speaks of.
pub const BODY_BYTES: usize = 32;

/// The bytes of a page of memory.
pub const PAGE_BYTES: u64 = 4096;

/// The end of all addresses, which have 56 bits.
pub const ADDRESS_END: u64 = 1 << 56;
