//! Packets that are made from other packets.

ghost use Rattle.std.specs.Prelude.{◌≡◌, ◌≤◌, ◌<◌, ◌+◌, ◌-◌, ◌*◌, ◌%◌, ◌^◌, ◌++◌, take, drop, length, replicate, false};
ghost use Rattle.sb_packet.specs.Cuts.{is_atomic, is_indivisible, part_of};
ghost use Rattle.sb_packet.specs.Messages.{message_of};
ghost use Rattle.sb_packet.specs.Spans.{carried_by, carried_of, span_of, word_count_of};
ghost use Rattle.sb_cut.specs.Merges.{AreMergeable, merge};

use sb_packet::{
    BODY_BYTES, Cmd, Op, Packet, carried, carried_span, padded, word_count, words_span,
};

/// Whether a packet is never cut and never merged.
pub fn is_indivisible(packet: &Packet) -> bool
    ensures indivisible { result ≡ is_indivisible (message_of packet.now) }
{
    match packet.cmd.op {
        Op::ReqAtomic => true,
        Op::ReqRd | Op::ReqWr | Op::ReqWrPosted | Op::RespRd | Op::RespWr => packet.cmd.ex,
    }
}

/// So many words of a packet, from one on, as a packet of their own.
pub fn part(packet: &Packet, from: u32, count: u32, eom: bool) -> Packet
    requires plain { is_atomic packet.now.cmd.op ≡ false }
    requires some { 0 < count }
    requires inside { from + count ≤ word_count_of packet.now.cmd }
    ensures part { message_of result ≡ part_of (message_of packet.now) from count eom }
{
    let start = words_span(packet.cmd.size, from);
    let bytes = share(
        packet,
        start as usize,
        words_span(packet.cmd.size, count) as usize,
    );
    reshaped(
        packet,
        packet.dst + u64::from(start),
        packet.src + u64::from(start),
        count,
        padded(bytes),
        eom,
    )
}

/// A packet and one that goes on where it ends, as one packet.
pub fn sum(first: &Packet, second: &Packet) -> Packet
    requires mergeable { AreMergeable 32 (message_of first.now) (message_of second.now) }
    ensures sum { message_of result ≡ merge (message_of first.now) (message_of second.now) }
{
    reshaped(
        first,
        first.dst,
        first.src,
        word_count(&first.cmd) + word_count(&second.cmd),
        extended(first, carried(second)),
        second.cmd.eom,
    )
}

/// What a packet carries of the bytes of which it speaks, so many of them from one on.
fn share(packet: &Packet, start: usize, count: usize) -> &[u8]
    requires inside { start + count ≤ span_of packet.now.cmd }
    ensures bytes { result.now ≡ take count (drop start (message_of packet.now).bytes) }
    ensures len { length result.now ≡ carried_by packet.now.cmd.op count }
{
    match packet.cmd.op {
        Op::ReqRd | Op::RespWr => &[],
        Op::ReqWr | Op::ReqWrPosted | Op::ReqAtomic | Op::RespRd => {
            &packet.body[start..start + count]
        }
    }
}

/// What a packet carries, and then these bytes, with zeros behind them.
fn extended(packet: &Packet, more: &[u8]) -> [u8; BODY_BYTES]
    requires room { carried_of packet.now.cmd + length more.now ≤ 32 }
    ensures body { result ≡ (message_of packet.now).bytes
        ++ (more.now ++ replicate (32 - (carried_of packet.now.cmd + length more.now)) 0) }
{
    let end = carried_span(&packet.cmd) as usize;
    let mut body = packet.body;
    body[end..end + more.len()].copy_from_slice(more);
    body
}

/// A packet like this one, with other words: their bytes stand at the front of the body, and zeros behind them.
fn reshaped(
    packet: &Packet,
    dst: u64,
    src: u64,
    count: u32,
    body: [u8; BODY_BYTES],
    eom: bool,
) -> Packet
    requires plain { is_atomic packet.now.cmd.op ≡ false }
    requires some { 0 < count }
    requires fits { count * 2 ^ packet.now.cmd.size ≤ 32 }
    requires dst_aligned { dst % 2 ^ packet.now.cmd.size ≡ 0 }
    requires src_aligned { src % 2 ^ packet.now.cmd.size ≡ 0 }
    requires dst_in_range { dst + count * 2 ^ packet.now.cmd.size ≤ 2 ^ 56 }
    requires src_in_range { src + count * 2 ^ packet.now.cmd.size ≤ 2 ^ 56 }
    requires whole { length body ≡ 32 }
    requires padding { drop (carried_by packet.now.cmd.op (count * 2 ^ packet.now.cmd.size)) body
        ≡ replicate (32 - carried_by packet.now.cmd.op (count * 2 ^ packet.now.cmd.size)) 0 }
    ensures message { message_of result
        ≡ record (message_of packet.now) {
          dst = dst;
          src = src;
          count = count;
          bytes = take (carried_by packet.now.cmd.op (count * 2 ^ packet.now.cmd.size)) body;
          eom = eom;
        } }
{
    let cmd = Cmd {
        op: packet.cmd.op,
        size: packet.cmd.size,
        len: (count - 1) as u8,
        qos: packet.cmd.qos,
        prot: packet.cmd.prot,
        eom,
        eof: packet.cmd.eof,
        ex: packet.cmd.ex,
        tail: packet.cmd.tail,
        host: packet.cmd.host,
    };
    Packet {
        cmd,
        dst,
        src,
        body,
    }
}
