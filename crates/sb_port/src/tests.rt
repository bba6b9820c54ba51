//! A port over a ring on one thread.

ghost use Rattle.std.specs.Prelude.{◌≡◌, ◌≤◌, ◌<◌, ◌⊎◌, []};
ghost use Rattle.sb_port.specs.Ports.{IsFit};

use crate::{OutPort, PortTurn};
use sb_link::{Fabric, Flows, LinkPlan, Pop, RxEnd, SerialFabric};
use sb_packet::{Cmd, Item, Op, Packet};
use std::test::Fail;

// one device of 4,096 bytes at 0, to which hosts 0 and 1 may go
fn flows() -> Flows {
    let mut bytes = [0; 32];
    bytes[0] = 4096;
    let mut through = [0; 32];
    through[0] = 1;
    through[1] = 1;
    Flows {
        count: 1,
        base: [0; 32],
        bytes,
        through,
    }
}

// a ring for requests
fn plan(capacity: u16, budget: u32) -> LinkPlan
    requires some { 0 < capacity }
    requires most { capacity ≤ 1024 }
    requires budgeted { budget ≤ 262144 }
{
    LinkPlan {
        ring: 0,
        up: false,
        width: 32,
        capacity,
        budget,
        flows: flows(),
    }
}

// a packet of one word at an address of the device, or behind it
fn word(op: Op, host: u8, dst: u64) -> Packet
    requires host { host ≤ 1 }
    requires address { (dst ≡ 8) ⊎ (dst ≡ 4096) }
{
    Packet {
        cmd: Cmd {
            op,
            size: 3,
            len: 0,
            qos: 0,
            prot: 0,
            eom: true,
            eof: false,
            ex: false,
            tail: 0,
            host,
        },
        dst,
        src: u64::from(host) << 40,
        body: [0; 32],
    }
}

// hands over what was sent, takes an item out, tells the port so, and gives it a turn
fn deliver<F: Fabric>(port: &mut OutPort<F::Tx>, rx: &mut F::Rx) -> Pop
    requires ring { port.old.mark ≡ F.Rx.mark rx.old }
    requires fit { IsFit port.old.plan port.old.state }
    ensures ring { port.new.mark ≡ F.Rx.mark rx.new }
    ensures fit { IsFit port.new.plan port.new.state }
    ensures plan { port.new.plan ≡ port.old.plan }
{
    F::hand(port.end(), rx);
    let popped = rx.try_pop();
    F::hand(port.end(), rx);
    let _ = port.turn(false);
    popped
}

// what a port answers and what comes out where two packets are offered that can't be merged and then a Close, over a
// ring of capacity 1; none where a packet can't be offered
fn observe<F: Fabric>(
    tx: F::Tx,
    rx: &mut F::Rx,
    packets: &[Packet; 2],
) -> Option<([PortTurn; 5], [Pop; 3])>
    requires unsent { F.Tx.sent tx ≡ [] }
    requires ring { F.Tx.mark tx ≡ F.Rx.mark rx.old }
{
    let mut port = OutPort::new(tx);
    if !port.passes(&packets[0]) {
        return None;
    }
    port.offer(&packets[0]);
    let held = port.turn(true);
    let let_go = port.turn(false);
    let rest = port.turn(false);
    if !port.ready() {
        return None;
    }
    if !port.passes(&packets[1]) {
        return None;
    }
    port.offer(&packets[1]);
    port.close();
    let owed = port.turn(true);
    let full = port.turn(true);
    let turns = [held, let_go, rest, owed, full];
    let pops = [
        deliver::<F>(&mut port, rx),
        deliver::<F>(&mut port, rx),
        deliver::<F>(&mut port, rx),
    ];
    if port.closed() {
        return Some((turns, pops));
    }
    None
}

#[test]
fn items_come_out_in_order(rt: HostRuntime) -> Result<(), Fail> {
    let mut fabric = SerialFabric::new(rt.alloc());
    let (tx, mut rx) = fabric.make(rt.alloc(), &plan(1, 2))?;
    let packets = [word(Op::ReqRd, 0, 8), word(Op::ReqRd, 1, 8)];
    // what is offered is held while more is expected, and goes out when none is, or behind it when the port is told to
    // close; the ring is full then
    let turns = [
        PortTurn::Clear,
        PortTurn::Moved,
        PortTurn::Clear,
        PortTurn::Moved,
        PortTurn::Full { sent: 1, taken: 0 },
    ];
    let pops = [
        Pop::Item(Item::Packet(packets[0])),
        Pop::Item(Item::Packet(packets[1])),
        Pop::Item(Item::Close),
    ];
    assert!(rt; observe::<SerialFabric>(tx, &mut rx, &packets) == Some((turns, pops)));
    Ok(())
}

// which packets pass at a port that was offered no word yet, and at one that was offered as many as its ring's budget
#[test]
fn what_passes(rt: HostRuntime) -> Result<(), Fail> {
    let mut fabric = SerialFabric::new(rt.alloc());
    let (tx, _rx) = fabric.make(rt.alloc(), &plan(1, 1))?;
    let mut port = OutPort::new(tx);
    for (packet, passes) in [
        (word(Op::ReqRd, 0, 8), true),
        (word(Op::ReqWrPosted, 1, 8), true),
        // an answer, on a ring of requests
        (word(Op::RespRd, 0, 8), false),
        // at no device
        (word(Op::ReqRd, 0, 4096), false),
    ] {
        assert!(rt; port.passes(&packet) == passes);
    }
    let only = word(Op::ReqRd, 0, 8);
    assert!(rt; port.ready() && port.passes(&only));
    port.offer(&only);
    assert!(rt; !port.passes(&only));
    Ok(())
}
