//! A plan and packets that go over its ring.

use sb_link::{Flows, LinkPlan};
use sb_packet::{Cmd, Op, Packet};

/// The plan of a ring for the requests of host 0 to one device, which has the first 2^20 addresses. The capacity is 1 at
/// least and 1,024 at most.
pub fn one_device_plan(capacity: u16) -> LinkPlan {
    LinkPlan {
        ring: 6,
        up: false,
        width: 8,
        capacity: capacity.clamp(1, 1024),
        budget: 262_144,
        flows: Flows {
            count: 1,
            base: [0; 32],
            bytes: [1 << 20; 32],
            through: [1; 32],
        },
    }
}

/// A read of the `number`th word of 8 bytes, for `number` below 131,072, and then of the first ones again.
pub fn read_of_word(number: u32) -> Packet {
    let word = u64::from(number % 131_072);
    Packet {
        cmd: Cmd {
            op: Op::ReqRd,
            size: 3,
            len: 0,
            qos: 0,
            prot: 0,
            eom: true,
            eof: false,
            ex: false,
            tail: 0,
            host: 0,
        },
        dst: word * 8,
        src: word * 8,
        body: [0; 32],
    }
}
