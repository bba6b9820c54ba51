//! Which packets are sound.

ghost use Rattle.std.specs.Prelude.{◌≡◌, true};
ghost use Rattle.sb_packet.specs.Messages.{message_of};
ghost use Rattle.sb_packet.specs.Spans.{word_count_of};
ghost use Rattle.sb_packet.specs.Cuts.{IsSound, device_place, reply_place};

use sb_packet::{Op, Packet, span};

const PAGE_BYTES: u64 = 4096;

// where the packet's bytes lie at the device
fn device_place(packet: &Packet) -> u64
    ensures place { result ≡ device_place (message_of packet.now) }
{
    match packet.cmd.op {
        Op::RespRd | Op::RespWr => packet.src,
        Op::ReqRd | Op::ReqWr | Op::ReqWrPosted | Op::ReqAtomic => packet.dst,
    }
}

// where they are answered
fn reply_place(packet: &Packet) -> u64
    ensures place { result ≡ reply_place (message_of packet.now) }
{
    match packet.cmd.op {
        Op::RespRd | Op::RespWr => packet.dst,
        Op::ReqRd | Op::ReqWr | Op::ReqWrPosted | Op::ReqAtomic => packet.src,
    }
}

// the packet speaks of one word
fn is_single(packet: &Packet) -> bool
    ensures yes { result ≡ true → word_count_of packet.now.cmd ≡ 1 }
    ensures no { word_count_of packet.now.cmd ≡ 1 → result ≡ true }
{
    match packet.cmd.op {
        Op::ReqAtomic => true,
        Op::ReqRd | Op::ReqWr | Op::ReqWrPosted | Op::RespRd | Op::RespWr => { packet.cmd.len == 0 }
    }
}

/// Whether a packet is sound: at the device its bytes lie in one page of 4,096; where it doesn't end its transaction
/// they don't end at the page's border; where they are answered they lie among the `2^40` addresses of its host; and
/// an exclusive access is to one word.
pub fn is_sound(packet: &Packet) -> bool
    ensures yes { result ≡ true → IsSound (message_of packet.now) }
    ensures no { IsSound (message_of packet.now) → result ≡ true }
{
    let bytes = u64::from(span(&packet.cmd));
    let place = device_place(packet);
    let reply = reply_place(packet);
    let window = u64::from(packet.cmd.host) << 40;
    if place % PAGE_BYTES + bytes > PAGE_BYTES {
        return false;
    }
    if !packet.cmd.eom && (place + bytes) % PAGE_BYTES == 0 {
        return false;
    }
    if reply < window {
        return false;
    }
    if reply + bytes > window + (1 << 40) {
        return false;
    }
    !packet.cmd.ex || is_single(packet)
}
