//! The atomics, and their numbers in a command word.

ghost use Rattle.std.specs.Prelude.{◌≡◌, ◌≤◌, Some};
ghost use Rattle.sb_word.specs.Atomics.{atomic_number, atomic_numbered};

/// What an atomic makes of a word and its operand: after UMI, in the order of their numbers in a command word.
#[derive(Clone, Copy, Debug, PartialEq, Eq)]
pub enum AtomicOp {
    /// The sum, of which the word keeps its lowest bits.
    Add,
    /// The bits that both have.
    And,
    /// The bits that one of them has.
    Or,
    /// The bits that one of them alone has.
    Xor,
    /// The greater in two's complement.
    Max,
    /// The lesser in two's complement.
    Min,
    /// The greater without sign.
    MaxU,
    /// The lesser without sign.
    MinU,
    /// The operand.
    Swap,
}

impl AtomicOp {
    /// Its number in a command word, 0 to 8.
    pub fn number(self) -> u8
        ensures number { result ≡ atomic_number self }
        ensures few { result ≤ 8 }
        ensures back { atomic_numbered result ≡ Some self }
    {
        match self {
            AtomicOp::Add => 0,
            AtomicOp::And => 1,
            AtomicOp::Or => 2,
            AtomicOp::Xor => 3,
            AtomicOp::Max => 4,
            AtomicOp::Min => 5,
            AtomicOp::MaxU => 6,
            AtomicOp::MinU => 7,
            AtomicOp::Swap => 8,
        }
    }

    /// The atomic with a number, 0 to 8.
    pub fn numbered(number: u8) -> AtomicOp
        requires { number ≤ 8 }
        ensures { atomic_numbered number ≡ Some result }
    {
        match number {
            0 => AtomicOp::Add,
            1 => AtomicOp::And,
            2 => AtomicOp::Or,
            3 => AtomicOp::Xor,
            4 => AtomicOp::Max,
            5 => AtomicOp::Min,
            6 => AtomicOp::MaxU,
            7 => AtomicOp::MinU,
            8 => AtomicOp::Swap,
            _ => unreachable!(),
        }
    }
}
