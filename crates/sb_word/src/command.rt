//! The command of a packet, as its fields.

ghost use Rattle.std.specs.Prelude.{◌≡◌, ◌≤◌};
ghost use Rattle.sb_word.specs.declared.command.Op.TheVariants.{ReqAtomic};

/// What a packet asks for or answers: after UMI, the part of its opcodes that this project's profile carries.
#[derive(Clone, Copy, Debug, PartialEq, Eq)]
pub enum Op {
    /// Asks for bytes.
    ReqRd,
    /// Writes bytes, and asks for an answer.
    ReqWr,
    /// Writes bytes, and asks for none.
    ReqWrPosted,
    /// Changes one word, and asks for the value before.
    ReqAtomic,
    /// Answers a read or an atomic, with bytes.
    RespRd,
    /// Answers a write.
    RespWr,
}

/// The fields of a command word.
#[derive(Clone, Copy, Debug, PartialEq, Eq)]
pub struct Cmd {
    pub op: Op,
    /// A word has `2^size` bytes; `size` is 0 to 3.
    pub size: u8,
    /// One less than the number of words, or the number of an atomic, which is 0 to 8.
    pub len: u8,
    /// Quality of service, 0 to 15: carried unchanged.
    pub qos: u8,
    /// Protection, 0 to 3: carried unchanged.
    pub prot: u8,
    /// This packet is the last of its transaction.
    pub eom: bool,
    /// End of frame: carried unchanged.
    pub eof: bool,
    /// Exclusive access: carried unchanged.
    pub ex: bool,
    /// The user bits of a request, or the error code of an answer: 0 to 3.
    pub tail: u8,
    /// The id of the host that asked, 0 to 31.
    pub host: u8,
    pub ghost size_fits: { size ≤ 3 },
    pub ghost qos_fits: { qos ≤ 15 },
    pub ghost prot_fits: { prot ≤ 3 },
    pub ghost tail_fits: { tail ≤ 3 },
    pub ghost host_fits: { host ≤ 31 },
    pub ghost atomic_type_fits: { op ≡ ReqAtomic → len ≤ 8 },
}
