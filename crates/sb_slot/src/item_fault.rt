//! What is wrong with a slot that isn't an item's.

use sb_word::WordFault;

/// Why a slot can't be read: this project's own.
#[derive(Clone, Copy, Debug, PartialEq, Eq)]
pub enum ItemFault {
    /// It is said to hold neither a packet (1) nor a Close (2).
    Flag { value: u32 },
    /// The command word can't be read.
    Word(WordFault),
    /// The packet speaks of so many bytes, which are more than 32.
    Bytes { count: u32 },
    /// The bytes at this address reach above `2^56`.
    Range { address: u64 },
    /// The address isn't a multiple of the word.
    Unaligned { address: u64 },
    /// This byte of the slot's 64 isn't 0, but nothing is carried there: `at` is 0 to 3 or 8 to 55.
    Padding { at: u8 },
    /// The slot's last number isn't 0.
    Reserved { value: u64 },
}
