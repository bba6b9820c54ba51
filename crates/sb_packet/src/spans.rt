//! How many bytes a packet speaks of, and which it carries.

ghost use Rattle.std.specs.Prelude.{◌≡◌, ◌≤◌, ◌*◌, ◌^◌};
ghost use Rattle.sb_packet.specs.Messages.{message_of};
ghost use Rattle.sb_packet.specs.Spans.{carried_of, span_of, word_count_of};

use crate::packet::Packet;
use sb_word::{Cmd, Op};

/// The number of bytes that so many words of `2^size` bytes have.
pub fn words_span(size: u8, count: u32) -> u32
    requires size { size ≤ 3 }
    requires few { count ≤ 256 }
    ensures { result ≡ count * 2 ^ size }
{
    count << size
}

/// The number of words that a command speaks of, 1 to 256: one for an atomic, whose `LEN` names its operation.
pub fn word_count(cmd: &Cmd) -> u32
    ensures words { result ≡ word_count_of cmd.now }
    ensures few { result ≤ 256 }
{
    match cmd.op {
        Op::ReqAtomic => 1,
        Op::ReqRd | Op::ReqWr | Op::ReqWrPosted | Op::RespRd | Op::RespWr => u32::from(cmd.len) + 1,
    }
}

/// The number of bytes that a command speaks of, 1 to 2,048.
pub fn span(cmd: &Cmd) -> u32
    ensures { result ≡ span_of cmd.now }
{
    words_span(cmd.size, word_count(cmd))
}

/// The number of bytes that the packet of a command carries: none for a read and for the answer to a write, and else
/// all that it speaks of.
pub fn carried_span(cmd: &Cmd) -> u32
    ensures { result ≡ carried_of cmd.now }
{
    match cmd.op {
        Op::ReqRd | Op::RespWr => 0,
        Op::ReqWr | Op::ReqWrPosted | Op::ReqAtomic | Op::RespRd => span(cmd),
    }
}

/// The bytes that a packet carries.
pub fn carried(packet: &Packet) -> &[u8]
    ensures { result.now ≡ (message_of packet.now).bytes }
{
    &packet.body[..carried_span(&packet.cmd) as usize]
}
