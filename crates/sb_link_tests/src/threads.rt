//! A ring between two threads.

ghost use Rattle.std.specs.Prelude.{◌≡◌, []};

use crate::line::Line;
use crate::sender::Sender;
use crate::traffic::{one_device_plan, read_of_word};
use sb_link::{Fabric, Pop, Push, RxEnd, TxEnd};
use sb_packet::Item;
use sb_queue::QueueFabric;
use sb_ring::RingFabric;
use std::alloc::Global;
use std::process::Abort;
use std::test::Fail;
use std::thread;
use std::thread::Threads;

/// So many times an end tries at most.
const TRIES: u32 = 100_000_000;

/// Sends packets as they find room, and then a Close, and gives how many items were sent.
fn produce<T: TxEnd>(mut sender: Sender<T>, packets: u32) -> u32 {
    let mut sent = 0;
    for _ in 0..TRIES {
        let answer = if sent < packets {
            sender.push(&read_of_word(sent))
        } else {
            sender.close()
        };
        match answer {
            Some(Push::Done) if sent < packets => sent += 1,
            Some(Push::Done) => return sent.saturating_add(1),
            Some(Push::Full { .. }) => thread::yield_now(),
            None => return sent,
        }
    }
    sent
}

/// Receives items until the Close, and gives how many came that were the right ones.
fn consume<U: RxEnd>(mut rx: U, packets: u32) -> u32 {
    let mut received = 0;
    for _ in 0..TRIES {
        match rx.try_pop() {
            Pop::Item(item) => {
                let right = if received < packets {
                    Item::Packet(read_of_word(received))
                } else {
                    Item::Close
                };
                if item != right {
                    return received;
                }
                if received == packets {
                    return received.saturating_add(1);
                }
                received = received.saturating_add(1);
            }
            Pop::Empty { .. } => thread::yield_now(),
        }
    }
    received
}

/// One thread sends packets and a Close, and another receives them.
fn carry<R: Abort + Threads + Sync, F: Fabric + Drop>(
    rt: &R,
    alloc: Global,
    fabric: F,
    capacity: u16,
) -> Result<(), Fail>
    requires unused { F.made fabric ≡ [] }
{
    let packets = 10_000;
    let (sender, rx) = Line::new(fabric, alloc, &one_device_plan(capacity))?.split();
    let (sent, received) = thread::join(
        rt,
        move || produce(sender, packets),
        move || consume(rx, packets),
    );
    assert_eq!(rt; sent, packets + 1);
    assert_eq!(rt; received, packets + 1);
    Ok(())
}

#[test]
fn own_ring_carries_between_threads(rt: HostRuntime) -> Result<(), Fail> {
    for capacity in [1, 2, 1024] {
        carry(&rt, rt.alloc(), RingFabric::new(rt.alloc()), capacity)?;
    }
    Ok(())
}

#[test]
fn ring_over_a_queue_carries_between_threads(rt: HostRuntime) -> Result<(), Fail> {
    for capacity in [1, 2, 1024] {
        carry(&rt, rt.alloc(), QueueFabric::new(rt, rt.alloc()), capacity)?;
    }
    Ok(())
}
