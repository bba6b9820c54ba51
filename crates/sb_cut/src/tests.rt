//! The packets of a transaction of 256 bytes, cut and joined.

ghost use Rattle.std.specs.Prelude.{◌≡◌, ◌≤◌, ◌<◌, false, []};
ghost use Rattle.sb_word.specs.declared.command.Op.TheVariants.{ReqWr};
ghost use Rattle.sb_cut.specs.Widths.{IsCutWidth};

use crate::{Cutter, Merged, Merger};
use sb_packet::{Cmd, Op, Packet, span};
use std::test::Fail;

// the number of packets of 32 bytes
const PACKETS: u8 = 8;

// packet k of a write of 32 words of 8 bytes: its bytes are all k
fn packet(k: u8) -> Packet
    requires inside { k < 8 }
    ensures op { result.cmd.op ≡ ReqWr }
    ensures ex { result.cmd.ex ≡ false }
{
    Packet {
        cmd: Cmd {
            op: Op::ReqWr,
            size: 3,
            len: 3,
            qos: 0,
            prot: 0,
            eom: k + 1 == PACKETS,
            eof: false,
            ex: false,
            tail: 0,
            host: 0,
        },
        dst: 4096 + u64::from(k) * 32,
        src: u64::from(k) * 32,
        body: [k; 32],
    }
}

/// What came out, packet by packet.
#[derive(Clone, Copy, PartialEq, Eq)]
struct Seen {
    packets: u32,
    bytes: u64,
    /// The most bytes of which one of them speaks.
    widest: u32,
    /// How many of them end the transaction, and whether the last one does.
    ends: u32,
    last_ends: bool,
    /// Each one goes on where the one before ended, and begins with the byte of the packet that stood there.
    in_order: bool,
}

impl Seen {
    // notes the packet that comes next
    fn note(&mut self, packet: &Packet) {
        let in_place = packet.dst.wrapping_sub(4096) == self.bytes && packet.src == self.bytes;
        let stamp = u64::from(packet.body[0]);
        self.in_order = self.in_order && in_place && stamp == self.bytes / 32;
        self.packets = self.packets.saturating_add(1);
        self.bytes = self.bytes.saturating_add(u64::from(span(&packet.cmd)));
        self.widest = self.widest.max(span(&packet.cmd));
        self.ends = self.ends.saturating_add(u32::from(packet.cmd.eom));
        self.last_ends = packet.cmd.eom;
    }
}

// cuts a packet, lets a merger take the parts, and notes what goes out
fn hand_over(cutter: &mut Cutter, merger: &mut Merger, packet: &Packet, seen: &mut Seen)
    requires op { packet.now.cmd.op ≡ ReqWr }
    requires ex { packet.now.cmd.ex ≡ false }
    requires empty { cutter.old.left ≡ [] }
    requires narrow { cutter.old.width ≤ merger.old.width }
    ensures empty { cutter.new.left ≡ [] }
    ensures cutter_width { cutter.new.width ≡ cutter.old.width }
    ensures merger_width { merger.new.width ≡ merger.old.width }
{
    cutter.take(packet);
    while let Some(part) = cutter.next() {
        if let Merged::Out(joined) = merger.take(&part) {
            seen.note(&joined);
        }
    }
}

// what comes out of a merger up to the one width that takes what was cut to the other
fn cut_and_join(narrow: u8, wide: u8) -> Seen
    requires narrow { IsCutWidth narrow }
    requires wide { IsCutWidth wide }
    requires order { narrow ≤ wide }
{
    let mut cutter = Cutter::new(narrow);
    let mut merger = Merger::new(wide);
    let mut seen = Seen {
        packets: 0,
        bytes: 0,
        widest: 0,
        ends: 0,
        last_ends: false,
        in_order: true,
    };
    for k in 0..PACKETS {
        hand_over(&mut cutter, &mut merger, &packet(k), &mut seen);
    }
    if let Some(last) = merger.flush() {
        seen.note(&last);
    }
    seen
}

// so many packets came out, none wider than that, and all of the transaction in order
fn is_all(seen: Seen, packets: u32, widest: u32) -> bool {
    let all = Seen {
        packets,
        bytes: 256,
        widest,
        ends: 1,
        last_ends: true,
        in_order: true,
    };
    seen == all
}

#[test]
fn transactions_are_cut_and_joined(rt: HostRuntime) -> Result<(), Fail> {
    assert!(rt; is_all(cut_and_join(8, 8), 32, 8));
    assert!(rt; is_all(cut_and_join(8, 16), 16, 16));
    assert!(rt; is_all(cut_and_join(8, 32), 8, 32));
    assert!(rt; is_all(cut_and_join(16, 32), 8, 32));
    assert!(rt; is_all(cut_and_join(32, 32), 8, 32));
    Ok(())
}
