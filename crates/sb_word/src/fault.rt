//! What is wrong with a word that isn't a command's.

/// Why a word can't be read: after UMI, this project's profile.
#[derive(Clone, Copy, Debug, PartialEq, Eq)]
pub enum WordFault {
    /// The opcode is 0, which is never a packet's.
    Invalid,
    /// The profile doesn't carry this opcode.
    Opcode { value: u8 },
    /// A word of `2^value` bytes is too wide: `value` is 4 to 7.
    Size { value: u8 },
    /// No atomic has this type: `value` is 9 to 255.
    AtomicType { value: u8 },
}
