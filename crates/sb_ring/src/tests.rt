//! Rings that carry a Close.

ghost use Rattle.std.specs.Prelude.{◌≡◌, []};

use crate::fabric::RingFabric;
use sb_link::{Fabric, Flows, LinkPlan, MeetFabric, Pop, Push, RxEnd, TxEnd};
use sb_packet::Item;
use std::alloc::Global;
use std::process::Abort;
use std::test::Fail;

// sends and receives a Close over a fabric's first ring; its ends meet in between, or learn of each other by themselves
fn carry_close<F: MeetFabric + Drop>(
    rt: &impl Abort,
    alloc: Global,
    mut fabric: F,
    plan: &LinkPlan,
    meets: bool,
) -> Result<(), Fail>
    requires unused { F.made fabric ≡ [] }
{
    let (mut tx, mut rx) = fabric.make(alloc, plan)?;
    assert_eq!(rt;
        rx.try_pop(),
        Pop::Empty {
            received: 0,
            sent: 0
        }
    );
    assert_eq!(rt; tx.try_push(&Item::Close), Push::Done);
    if meets {
        F::meet(&mut tx, &mut rx);
    }
    assert_eq!(rt; rx.try_pop(), Pop::Item(Item::Close));
    assert_eq!(rt;
        rx.try_pop(),
        Pop::Empty {
            received: 1,
            sent: 1
        }
    );
    fabric.settle(tx, rx);
    Ok(())
}

// the plan of a ring over which nothing but a Close goes
fn close_plan(capacity: u16) -> LinkPlan {
    LinkPlan {
        ring: 3,
        up: true,
        width: 8,
        capacity: capacity.clamp(1, 1024),
        budget: 0,
        flows: Flows {
            count: 0,
            base: [0; 32],
            bytes: [0; 32],
            through: [0; 32],
        },
    }
}

#[test]
fn ring_carries_a_close(rt: HostRuntime) -> Result<(), Fail> {
    let fabric = RingFabric::new(rt.alloc());
    carry_close(&rt, rt.alloc(), fabric, &close_plan(1), true)
}

#[test]
fn close_is_published_at_once(rt: HostRuntime) -> Result<(), Fail> {
    let fabric = RingFabric::new(rt.alloc());
    carry_close(&rt, rt.alloc(), fabric, &close_plan(16), false)
}
