//! What pushes and pops answer on one thread, call by call.

ghost use Rattle.std.specs.Prelude.{◌≡◌, []};

use crate::line::Line;
use crate::traffic::{one_device_plan, read_of_word};
use sb_link::{Fabric, Pop, Push, SerialFabric};
use sb_packet::Item;
use sb_queue::QueueFabric;
use sb_ring::RingFabric;
use std::alloc::Global;
use std::process::Abort;
use std::test::Fail;

/// A call, and what it is to answer.
#[derive(Clone, Copy)]
enum Call {
    Push(u32, Push),
    Close(Push),
    Flush,
    Pop(Pop),
}

fn item(number: u32) -> Pop {
    Pop::Item(Item::Packet(read_of_word(number)))
}

/// Makes the calls on a ring, and looks at the answers. Where `hands` is set, what was sent is handed over after each.
fn check_calls<F: Fabric + Drop>(
    rt: &impl Abort,
    alloc: Global,
    fabric: F,
    capacity: u16,
    hands: bool,
    calls: &[Call],
) -> Result<(), Fail>
    requires unused { F.made fabric ≡ [] }
{
    let mut ring = Line::new(fabric, alloc, &one_device_plan(capacity))?;
    for call in calls {
        match *call {
            Call::Push(number, answer) => {
                assert_eq!(rt; ring.push(&read_of_word(number)), Some(answer));
            }
            Call::Close(answer) => assert_eq!(rt; ring.close(), Some(answer)),
            Call::Flush => ring.flush(),
            Call::Pop(answer) => assert_eq!(rt; ring.pop(), answer),
        }
        if hands {
            ring.hand();
        }
    }
    ring.settle();
    Ok(())
}

/// A ring of one place: it is taken and given back, twice.
fn check_one_place<F: Fabric + Drop>(
    rt: &impl Abort,
    alloc: Global,
    fabric: F,
    hands: bool,
) -> Result<(), Fail>
    requires unused { F.made fabric ≡ [] }
{
    let calls = [
        Call::Push(0, Push::Done),
        Call::Push(1, Push::Full { sent: 1, taken: 0 }),
        Call::Pop(item(0)),
        Call::Push(1, Push::Done),
        Call::Pop(item(1)),
        Call::Pop(Pop::Empty {
            received: 2,
            sent: 2,
        }),
    ];
    check_calls(rt, alloc, fabric, 1, hands, &calls)
}

/// A ring of three places: the fourth item finds it full, and the next one after a pop has a place.
fn check_three_places<F: Fabric + Drop>(
    rt: &impl Abort,
    alloc: Global,
    fabric: F,
    hands: bool,
) -> Result<(), Fail>
    requires unused { F.made fabric ≡ [] }
{
    let calls = [
        Call::Push(0, Push::Done),
        Call::Push(1, Push::Done),
        Call::Push(2, Push::Done),
        Call::Push(3, Push::Full { sent: 3, taken: 0 }),
        Call::Pop(item(0)),
        Call::Push(3, Push::Done),
        Call::Push(4, Push::Full { sent: 4, taken: 1 }),
        Call::Pop(item(1)),
        Call::Pop(item(2)),
        Call::Pop(item(3)),
        Call::Pop(Pop::Empty {
            received: 4,
            sent: 4,
        }),
    ];
    check_calls(rt, alloc, fabric, 3, hands, &calls)
}

#[test]
fn serial_ring_answers_call_by_call(rt: HostRuntime) -> Result<(), Fail> {
    check_one_place(&rt, rt.alloc(), SerialFabric::new(rt.alloc()), true)?;
    check_three_places(&rt, rt.alloc(), SerialFabric::new(rt.alloc()), true)
}

#[test]
fn own_ring_answers_call_by_call(rt: HostRuntime) -> Result<(), Fail> {
    check_one_place(&rt, rt.alloc(), RingFabric::new(rt.alloc()), false)?;
    check_three_places(&rt, rt.alloc(), RingFabric::new(rt.alloc()), false)
}

#[test]
fn ring_over_a_queue_answers_call_by_call(rt: HostRuntime) -> Result<(), Fail> {
    check_one_place(&rt, rt.alloc(), QueueFabric::new(rt, rt.alloc()), false)?;
    check_three_places(&rt, rt.alloc(), QueueFabric::new(rt, rt.alloc()), false)
}

/// Three items of a ring of 16 places are kept back until the end is flushed, and a Close never is.
#[test]
fn own_ring_publishes_on_flush_and_close(rt: HostRuntime) -> Result<(), Fail> {
    let calls = [
        Call::Push(0, Push::Done),
        Call::Push(1, Push::Done),
        Call::Push(2, Push::Done),
        Call::Pop(Pop::Empty {
            received: 0,
            sent: 0,
        }),
        Call::Flush,
        Call::Pop(item(0)),
        Call::Pop(item(1)),
        Call::Pop(item(2)),
        Call::Push(3, Push::Done),
        Call::Close(Push::Done),
        Call::Pop(item(3)),
        Call::Pop(Pop::Item(Item::Close)),
    ];
    let fabric = RingFabric::new(rt.alloc());
    check_calls(&rt, rt.alloc(), fabric, 16, false, &calls)
}

/// Where a ring has fewer places than a batch has items, as many items as it has places are published together.
#[test]
fn own_ring_publishes_a_full_ring(rt: HostRuntime) -> Result<(), Fail> {
    let calls = [
        Call::Push(0, Push::Done),
        Call::Push(1, Push::Done),
        Call::Pop(Pop::Empty {
            received: 0,
            sent: 0,
        }),
        Call::Push(2, Push::Done),
        Call::Pop(item(0)),
        Call::Pop(item(1)),
        Call::Pop(item(2)),
    ];
    let fabric = RingFabric::new(rt.alloc());
    check_calls(&rt, rt.alloc(), fabric, 3, false, &calls)
}

/// A batch has eight items, and a push that finds the ring full publishes the rest.
#[test]
fn own_ring_publishes_before_full(rt: HostRuntime) -> Result<(), Fail> {
    let mut ring = Line::new(RingFabric::new(rt.alloc()), rt.alloc(), &one_device_plan(9))?;
    for number in 0..9 {
        assert_eq!(rt; ring.push(&read_of_word(number)), Some(Push::Done));
    }
    for number in 0..8 {
        assert_eq!(rt; ring.pop(), item(number));
    }
    let empty = Pop::Empty {
        received: 8,
        sent: 8,
    };
    assert_eq!(rt; ring.pop(), empty);
    for number in 9..17 {
        assert_eq!(rt; ring.push(&read_of_word(number)), Some(Push::Done));
    }
    let full = Push::Full { sent: 17, taken: 8 };
    assert_eq!(rt; ring.push(&read_of_word(17)), Some(full));
    for number in 8..17 {
        assert_eq!(rt; ring.pop(), item(number));
    }
    Ok(())
}

/// Where the ends are handed over, nothing is kept back.
#[test]
fn own_ring_publishes_when_handed(rt: HostRuntime) -> Result<(), Fail> {
    let calls = [Call::Push(0, Push::Done), Call::Pop(item(0))];
    let fabric = RingFabric::new(rt.alloc());
    check_calls(&rt, rt.alloc(), fabric, 16, true, &calls)
}
