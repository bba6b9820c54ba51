//! What a script asks for, and what comes of it.

ghost use Rattle.std.specs.Prelude.{◌≡◌, ◌≤◌};
ghost use Rattle.sb_packet.specs.Memories.{code_number};
ghost use Rattle.sb_packet.specs.Answers.{code_numbered};

use crate::bytes::Bytes;
use sb_word::AtomicOp;

/// What a transaction does at a device.
#[derive(Clone, Copy, Debug, PartialEq, Eq)]
pub enum Kind {
    Read,
    Write,
    /// A write that nobody answers.
    Posted,
    /// A change of one word.
    Atomic(AtomicOp),
}

/// One line of a script.
#[derive(Debug, Drop)]
pub struct Txn {
    pub kind: Kind,
    /// A word has `2^size` bytes; `size` is 0 to 3.
    pub size: u8,
    /// The first byte's address, a multiple of the word.
    pub addr: u64,
    /// The number of words, 1 to 256.
    pub count: u16,
    /// The bytes of all words, in the order of addresses; a read has none.
    pub body: Bytes,
}

/// How a device answered, as the error code of its answers: after UMI, in this project's profile.
#[derive(Clone, Copy, Debug, PartialEq, Eq)]
pub enum Code {
    Ok,
    /// An exclusive access that succeeded.
    ExOk,
    /// The device refused.
    DevErr,
    /// No device has the address.
    NetErr,
}

impl Code {
    /// Its number in the `tail` of an answer, 0 to 3.
    pub fn number(self) -> u8
        ensures number { result ≡ code_number self }
        ensures few { result ≤ 3 }
        ensures back { code_numbered result ≡ self }
    {
        match self {
            Code::Ok => 0,
            Code::ExOk => 1,
            Code::DevErr => 2,
            Code::NetErr => 3,
        }
    }

    /// The code with a number, 0 to 3.
    pub fn numbered(number: u8) -> Code
        ensures { result ≡ code_numbered number }
    {
        match number {
            0 => Code::Ok,
            1 => Code::ExOk,
            2 => Code::DevErr,
            _ => Code::NetErr,
        }
    }
}

/// How far a transaction has come.
#[derive(Clone, Copy, Debug, PartialEq, Eq)]
pub enum TxnState {
    /// Some word of it isn't answered.
    Waiting,
    /// It is posted, so nothing answers it.
    Posted,
    /// All its words are answered. `code` is the greatest of their codes.
    Answered { code: Code },
}
