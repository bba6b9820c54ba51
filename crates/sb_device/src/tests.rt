//! What a device answers, journals and writes.

ghost use Rattle.std.specs.Prelude.{◌≡◌, ◌≤◌, ◌⊎◌};
ghost use Rattle.sb_word.specs.declared.command.Op.TheVariants.{ReqWr, ReqWrPosted};

use crate::harness::{BASE, Course, see};
use sb_link::{Cause, SerialFabric, Turn};
use sb_packet::{Cmd, Item, Op, Packet};
use std::alloc::Global;
use std::process::Abort;
use std::test::Fail;

// the command of a packet of one byte
fn command(op: Op, host: u8) -> Cmd
    requires { host ≤ 31 }
    ensures size { result.size ≡ 0 }
    ensures len { result.len ≡ 0 }
    ensures op { result.op ≡ op }
{
    Cmd {
        op,
        size: 0,
        len: 0,
        qos: 0,
        prot: 0,
        eom: true,
        eof: false,
        ex: false,
        tail: 0,
        host,
    }
}

// a write of one byte to the first address, the nth request of its host
fn write(op: Op, host: u8, nth: u32, byte: u8) -> Packet
    requires host { host ≤ 31 }
    requires written { (op ≡ ReqWr) ⊎ (op ≡ ReqWrPosted) }
{
    let mut body = [0; 32];
    body[0] = byte;
    Packet {
        cmd: command(op, host),
        dst: BASE,
        src: (u64::from(host) << 40) + u64::from(nth),
        body,
    }
}

// a course on which answers are taken at once, over rings with room for all
fn prompt_course(budget: u32, rounds: u32) -> Course {
    Course {
        readonly: false,
        capacity: 1024,
        budget,
        rounds,
        patience: 0,
    }
}

// the code of an answer; none for a Close
fn code(item: &Item) -> Option<u8> {
    match item {
        Item::Packet(p) => Some(p.cmd.tail),
        Item::Close => None,
    }
}

/// A course, the requests, and what is to be seen.
#[derive(Clone, Copy)]
struct Case<'a> {
    course: Course,
    requests: &'a [Packet],
    /// The first turns.
    turns: &'a [Turn],
    /// The round and the host of each entry.
    entries: &'a [(u32, u8)],
    /// The code of each answer, and none for the Close.
    codes: &'a [Option<u8>],
    first_byte: u8,
}

// drives a device as the case says, and compares what is seen
fn follow(rt: &impl Abort, alloc: Global, case: Case<'_>) -> Result<(), Fail> {
    let mut fabric = SerialFabric::new(alloc);
    let (seen, first_byte) = see(alloc, &mut fabric, case.requests, case.course)?;
    let mut entries = Vec::new(alloc);
    for entry in seen.journal.as_slice() {
        entries.push((entry.round, entry.packet.cmd.host))?;
    }
    let mut codes = Vec::new(alloc);
    for item in seen.answers.as_slice() {
        codes.push(code(item))?;
    }
    assert!(rt; seen.turns.as_slice().starts_with(case.turns));
    assert!(rt; entries.as_slice() == case.entries);
    assert!(rt; codes.as_slice() == case.codes);
    assert_eq!(rt; first_byte, case.first_byte);
    Ok(())
}

#[test]
fn requests_are_served_in_order(rt: HostRuntime) -> Result<(), Fail> {
    let prompt = prompt_course(16, 6);
    let slow = Course {
        capacity: 1,
        rounds: 9,
        patience: 4,
        ..prompt
    };
    let full = Turn::Idle(Cause::Full {
        ring: 1,
        sent: 1,
        taken: 0,
    });
    let refused = [write(Op::ReqWr, 0, 0, 9), write(Op::ReqWrPosted, 0, 1, 9)];
    let three = [
        write(Op::ReqWr, 0, 0, 1),
        write(Op::ReqWr, 0, 1, 2),
        write(Op::ReqWr, 0, 2, 3),
    ];
    let mixed = [
        write(Op::ReqWr, 1, 0, 1),
        write(Op::ReqWr, 0, 0, 2),
        write(Op::ReqWr, 1, 1, 3),
    ];
    for case in [
        // a Close comes at once: it is handed on, and the device is done
        Case {
            course: prompt,
            requests: &[],
            turns: &[Turn::Moved, Turn::Done, Turn::Done],
            entries: &[],
            codes: &[None],
            first_byte: 7,
        },
        // a memory that may not be written: both writes stand in the journal, the first is refused; its answer is held
        // until the Close comes, as nothing says that no more follows
        Case {
            course: Course {
                readonly: true,
                ..prompt
            },
            requests: &refused,
            turns: &[
                Turn::Moved,
                Turn::Moved,
                Turn::Moved,
                Turn::Moved,
                Turn::Done,
            ],
            entries: &[(0, 0), (1, 0)],
            codes: &[Some(2), None],
            first_byte: 7,
        },
        // answers are not taken, over a ring of one place: the first one stands there from round 1 on, the second one
        // waits at the port from round 2 on, which holds the third for merging, until they are
        Case {
            course: slow,
            requests: &three,
            turns: &[
                Turn::Moved,
                Turn::Moved,
                Turn::Moved,
                full,
                full,
                Turn::Moved,
            ],
            entries: &[(0, 0), (1, 0), (2, 0)],
            codes: &[Some(0), Some(0), Some(0), None],
            first_byte: 3,
        },
        // rings for one word: the first request is served, and the port of the host drops the others
        Case {
            course: prompt_course(1, 6),
            requests: &three,
            turns: &[Turn::Moved],
            entries: &[(0, 0)],
            codes: &[Some(0), None],
            first_byte: 1,
        },
        // the words of two hosts are served in the order in which they come in, not host by host
        Case {
            course: prompt,
            requests: &mixed,
            turns: &[Turn::Moved],
            entries: &[(0, 1), (1, 0), (2, 1)],
            codes: &[Some(0), Some(0), Some(0), None],
            first_byte: 3,
        },
    ] {
        follow(&rt, rt.alloc(), case)?;
    }
    Ok(())
}

// a thousand and twenty-four packets, one a round, and then the Close
#[test]
fn many_packets(rt: HostRuntime) -> Result<(), Fail> {
    let mut fabric = SerialFabric::new(rt.alloc());
    let mut requests = Vec::new(rt.alloc());
    for nth in 0..1024 {
        requests.push(write(Op::ReqWr, 0, nth, 5))?;
    }
    let (seen, first_byte) = see(
        rt.alloc(),
        &mut fabric,
        requests.as_slice(),
        prompt_course(1024, 1030),
    )?;
    assert_eq!(rt; seen.journal.len(), 1024);
    assert_eq!(rt; seen.answers.len(), 1025);
    assert_eq!(rt; first_byte, 5);
    Ok(())
}
