//! Rings on one thread: a worked example, and many bursts of items against plain counts.

ghost use Rattle.std.specs.Prelude.{◌≡◌, ◌<◌, ◌≤◌, []};

use crate::answers::{Pop, Push};
use crate::fabric::Fabric;
use crate::flows::Flows;
use crate::harness::{Harness, Relay};
use crate::pass_on::PassOn;
use crate::plan::LinkPlan;
use crate::serial::SerialFabric;
use sb_packet::{Cmd, Item, Op, Packet};
use std::alloc::Global;
use std::process::Abort;
use std::test::Fail;

/// The plan of a ring for the requests of host 0 to one device, which has the first 2^20 addresses.
fn plan(capacity: u16) -> LinkPlan {
    LinkPlan {
        ring: 6,
        up: false,
        width: 8,
        capacity: capacity.clamp(1, 1024),
        budget: 262_144,
        flows: Flows {
            count: 1,
            base: [0; 32],
            bytes: [1 << 20; 32],
            through: [1; 32],
        },
    }
}

/// The `number`th packet: a read of the `number`th word of 8 bytes.
fn packet(number: u32) -> Packet {
    Packet {
        cmd: Cmd {
            op: Op::ReqRd,
            size: 3,
            len: 0,
            qos: 0,
            prot: 0,
            eom: true,
            eof: false,
            ex: false,
            tail: 0,
            host: 0,
        },
        dst: u64::from(number) * 8,
        src: u64::from(number) * 8,
        body: [0; 32],
    }
}

fn item(number: u32) -> Pop {
    Pop::Item(Item::Packet(packet(number)))
}

/// A call, and what it is to answer.
#[derive(Clone, Copy)]
enum Call {
    Push(u32, Push),
    Pop(Pop),
}

#[test]
fn one_place_is_taken_and_given_back(rt: HostRuntime) -> Result<(), Fail> {
    let calls = [
        Call::Push(0, Push::Done),
        Call::Push(1, Push::Full { sent: 1, taken: 0 }),
        Call::Pop(item(0)),
        Call::Push(1, Push::Done),
        Call::Pop(item(1)),
        Call::Pop(Pop::Empty {
            received: 2,
            sent: 2,
        }),
    ];
    let fabric = SerialFabric::new(rt.alloc());
    let mut ring = Harness::new(fabric, rt.alloc(), &plan(1))?;
    for call in calls {
        match call {
            Call::Push(number, answer) => {
                assert_eq!(rt; ring.push(&packet(number)), Some(answer));
            }
            Call::Pop(answer) => assert_eq!(rt; ring.pop(), answer),
        }
        ring.hand();
    }
    ring.settle();
    Ok(())
}

/// How many items were sent, handed over and received, and how many the sending end knows to have been taken.
#[derive(Clone, Copy)]
struct Counts {
    sent: u32,
    handed: u32,
    received: u32,
    told: u32,
}

impl Counts {
    fn push(&mut self, capacity: u16) -> Push {
        if self.sent.saturating_sub(self.told) == u32::from(capacity) {
            return Push::Full {
                sent: self.sent,
                taken: self.told,
            };
        }
        self.sent = self.sent.saturating_add(1);
        Push::Done
    }

    fn pop(&mut self) -> Pop {
        if self.received == self.handed {
            return Pop::Empty {
                received: self.received,
                sent: self.handed,
            };
        }
        let number = self.received;
        self.received = number.saturating_add(1);
        item(number)
    }

    fn hand(&mut self) {
        self.handed = self.sent;
        self.told = self.received;
    }
}

/// Sends and receives in bursts, of which each second one isn't handed over, and then ends the traffic.
fn send_bursts<F: Fabric + Drop>(
    rt: &impl Abort,
    alloc: Global,
    fabric: F,
    capacity: u16,
    burst: u32,
) -> Result<(), Fail>
    requires empty { F.made fabric ≡ [] }
{
    let mut ring = Harness::new(fabric, alloc, &plan(capacity))?;
    let mut counts = Counts {
        sent: 0,
        handed: 0,
        received: 0,
        told: 0,
    };
    for round in 0..6 {
        for _ in 0..burst {
            let next = packet(counts.sent);
            let answer = counts.push(capacity);
            assert_eq!(rt; ring.push(&next), Some(answer), "{capacity} {burst}");
        }
        if round % 2 == 0 {
            ring.hand();
            counts.hand();
        }
        for _ in 0..=burst {
            let answer = counts.pop();
            assert_eq!(rt; ring.pop(), answer, "{capacity} {burst}");
        }
    }
    ring.hand();
    counts.hand();
    for _ in counts.received..counts.handed {
        let answer = counts.pop();
        assert_eq!(rt; ring.pop(), answer, "{capacity} {burst}");
    }
    assert_eq!(rt; ring.pop(), counts.pop());
    ring.hand();
    assert_eq!(rt; ring.close(), Some(Push::Done));
    assert_eq!(rt; ring.push(&packet(0)), None);
    ring.hand();
    assert_eq!(rt; ring.pop(), Pop::Item(Item::Close));
    let sent = counts.sent.saturating_add(1);
    let empty = Pop::Empty {
        received: sent,
        sent,
    };
    assert_eq!(rt; ring.pop(), empty);
    ring.settle();
    Ok(())
}

#[test]
fn items_come_out_in_order(rt: HostRuntime) -> Result<(), Fail> {
    for capacity in [1, 2, 3, 1024] {
        for burst in [1, 2, 3, 4, 1023, 1024, 1025] {
            let fabric = SerialFabric::new(rt.alloc());
            send_bursts(&rt, rt.alloc(), fabric, capacity, burst)?;
            let fabric = PassOn {
                inner: SerialFabric::new(rt.alloc()),
            };
            send_bursts(&rt, rt.alloc(), fabric, capacity, burst)?;
        }
    }
    Ok(())
}

#[test]
fn an_item_is_held_between_two_rings(rt: HostRuntime) -> Result<(), Fail> {
    let fabric = SerialFabric::new(rt.alloc());
    let mut next = SerialFabric::new(rt.alloc());
    let mut relay = Relay::new(fabric, &mut next, rt.alloc(), &plan(1))?;
    let held = Some(Item::Packet(packet(1)));
    assert_eq!(rt; relay.push(&packet(0)), Some(Push::Done));
    relay.hand();
    assert_eq!(rt; relay.forward(), (true, None));
    assert_eq!(rt;
        relay.push(&packet(1)),
        Some(Push::Full { sent: 1, taken: 0 })
    );
    relay.hand();
    assert_eq!(rt; relay.push(&packet(1)), Some(Push::Done));
    relay.hand();
    assert_eq!(rt; relay.forward(), (false, held));
    assert_eq!(rt; relay.pop(), item(0));
    relay.hand();
    assert_eq!(rt; relay.forward(), (true, None));
    assert_eq!(rt; relay.forward(), (false, None));
    relay.hand();
    assert_eq!(rt; relay.pop(), item(1));
    Ok(())
}
