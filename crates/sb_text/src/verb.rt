//! The verbs of a script.

ghost use Rattle.std.specs.Prelude.{◌≡◌};
ghost use Rattle.sb_text.specs.Sentences.{kind_of as kind_by};

use sb_packet::{AtomicOp, Kind};

/// What a verb asks for; None where the word is no verb.
pub fn kind_of(verb: &[u8]) -> Option<Kind>
    ensures { result ≡ kind_by verb.now }
{
    match verb {
        [b'r', b'd'] => Some(Kind::Read),
        [b'w', b'r'] => Some(Kind::Write),
        [b'w', b'p'] => Some(Kind::Posted),
        [b'a', b'd', b'd'] => Some(Kind::Atomic(AtomicOp::Add)),
        [b'a', b'n', b'd'] => Some(Kind::Atomic(AtomicOp::And)),
        [b'o', b'r'] => Some(Kind::Atomic(AtomicOp::Or)),
        [b'x', b'o', b'r'] => Some(Kind::Atomic(AtomicOp::Xor)),
        [b'm', b'a', b'x'] => Some(Kind::Atomic(AtomicOp::Max)),
        [b'm', b'i', b'n'] => Some(Kind::Atomic(AtomicOp::Min)),
        [b'm', b'a', b'x', b'u'] => Some(Kind::Atomic(AtomicOp::MaxU)),
        [b'm', b'i', b'n', b'u'] => Some(Kind::Atomic(AtomicOp::MinU)),
        [b's', b'w', b'a', b'p'] => Some(Kind::Atomic(AtomicOp::Swap)),
        _ => None,
    }
}
