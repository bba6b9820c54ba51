//! A device at its two rings, driven by one port on one thread.

ghost use Rattle.std.specs.Prelude.{◌≡◌, true, Some, [], slice_get};
ghost use Rattle.sb_link.specs.PlanOf.{flows_of};
ghost use Rattle.sb_link.specs.RingPlans.{NetFlow, device_ranges, goes_through};
ghost use Rattle.sb_port.specs.Ports.{IsFit};
ghost use Rattle.sb_device.specs.Devices.{IsWholeDevice};

use crate::Device;
use sb_drive::Node;
use sb_link::{Fabric, Flows, LinkPlan, Pop, RxEnd, Turn, TxEnd};
use sb_mem::Memory;
use sb_packet::{Entry, Item, Packet};
use sb_port::{InLeg, OutPort};
use std::alloc::{AllocError, Global};

/// The device's first address.
pub const BASE: u64 = 0x1000;

/// What a device did in its rounds.
#[derive(Drop)]
pub struct Seen {
    pub turns: Vec<Turn>,
    pub answers: Vec<Item>,
    pub journal: Vec<Entry>,
}

/// How a device is driven.
#[derive(Clone, Copy)]
pub struct Course {
    pub readonly: bool,
    /// How many items wait on the ring of answers at most, and how many words go over each of the rings.
    pub capacity: u16,
    pub budget: u32,
    pub rounds: u32,
    /// The round from which on answers are taken.
    pub patience: u32,
}

// one device of 4,096 bytes at 0x1000, to which each host may go
fn flows() -> Flows
    ensures own { (f : NetFlow) → goes_through (flows_of result) f ≡ true → f.device ≡ 0 }
    ensures range { slice_get (device_ranges (flows_of result)) 0 ≡ Some (record { base = 4096; bytes = 4096 }) }
{
    Flows {
        count: 1,
        base: [BASE; 32],
        bytes: [4096; 32],
        through: [1; 32],
    }
}

// the plan of a ring, for at most 1,024 items
fn plan(ring: u16, up: bool, capacity: u16, budget: u32, flows: &Flows) -> LinkPlan
    ensures ring { result.ring ≡ ring }
    ensures up { result.up ≡ up }
    ensures flows { result.flows ≡ flows.now }
{
    LinkPlan {
        ring,
        up,
        width: 32,
        capacity: capacity.clamp(1, 1024),
        budget: budget.min(262_144),
        flows: *flows,
    }
}

// the ends of the ring of requests meet
fn meet_asking<F: Fabric>(device: &mut Device<F>, host: &mut OutPort<F::Tx>)
    requires whole { IsWholeDevice device.old }
    requires fit { IsFit host.old.plan host.old.state }
    requires ring { device.old.requests.mark ≡ host.old.mark }
    ensures whole { IsWholeDevice device.new }
    ensures fit { IsFit host.new.plan host.new.state }
    ensures ring { device.new.requests.mark ≡ host.new.mark }
    ensures answers { device.new.answers ≡ device.old.answers }
{
    F::hand(host.end(), device.requests());
}

// the ends of the ring of answers meet
fn meet_answering<F: Fabric>(device: &mut Device<F>, answers: &mut F::Rx)
    requires whole { IsWholeDevice device.old }
    requires ring { device.old.answers.mark ≡ F.Rx.mark answers.old }
    ensures whole { IsWholeDevice device.new }
    ensures ring { device.new.answers.mark ≡ F.Rx.mark answers.new }
    ensures requests { device.new.requests ≡ device.old.requests }
{
    F::hand(device.answers().end(), answers);
}

// offers the next request, or closes behind the last one, where the port is ready; gives the number of the next one
fn ask<T: TxEnd>(host: &mut OutPort<T>, requests: &[Packet], next: usize) -> usize
    requires fit { IsFit host.old.plan host.old.state }
    ensures fit { IsFit host.new.plan host.new.state }
    ensures mark { host.new.mark ≡ host.old.mark }
{
    if !host.ready() || host.close_requested() {
        let _ = host.turn(false);
        return next;
    }
    match requests.get(next) {
        Some(request) => {
            if host.passes(request) {
                host.offer(request);
            }
        }
        None => host.close(),
    }
    let _ = host.turn(false);
    next.saturating_add(1)
}

// drives a device by one port, round after round
fn drive<F: Fabric>(
    alloc: Global,
    device: &mut Device<F>,
    host: &mut OutPort<F::Tx>,
    answers: &mut F::Rx,
    requests: &[Packet],
    course: Course,
) -> Result<Seen, AllocError>
    requires whole { IsWholeDevice device.old }
    requires fit { IsFit host.old.plan host.old.state }
    requires request_ring { device.old.requests.mark ≡ host.old.mark }
    requires answer_ring { device.old.answers.mark ≡ F.Rx.mark answers.old }
{
    let mut turns = Vec::new(alloc);
    let mut items = Vec::new(alloc);
    let mut next = 0;
    for round in 0..course.rounds {
        next = ask(host, requests, next);
        meet_asking(device, host);
        meet_answering(device, answers);
        turns.push(device.turn(round))?;
        meet_answering(device, answers);
        if round < course.patience {
            continue;
        }
        if let Pop::Item(item) = answers.try_pop() {
            items.push(item)?;
        }
    }
    Ok(Seen {
        turns,
        answers: items,
        journal: Vec::from_slice(alloc, device.journal())?,
    })
}

/// Makes a device and its rings, drives it, and takes it apart: what it did, and the first byte of its memory.
pub fn see<F: Fabric>(
    alloc: Global,
    fabric: &mut F,
    requests: &[Packet],
    course: Course,
) -> Result<(Seen, u8), AllocError>
    requires new { F.made fabric.old ≡ [] }
{
    let flows = flows();
    let down = plan(0, false, 1024, course.budget, &flows);
    let up = plan(1, true, course.capacity, course.budget, &flows);
    let (tx, requests_end) = fabric.make(alloc, &down)?;
    let (answers_end, rx) = fabric.make(alloc, &up)?;
    let mut rx = rx;
    let memory = Memory::new(alloc, BASE, 1, course.readonly, &[7])?;
    let leg = InLeg {
        link: 0,
        requests: requests_end,
        answers: answers_end,
    };
    let mut device = Device::<F>::new(alloc, 0, memory, leg)?;
    let mut host = OutPort::new(tx);
    let seen = drive(alloc, &mut device, &mut host, &mut rx, requests, course)?;
    let (_, _, state) = device.into_parts();
    let first_byte = state.memory.image().first().copied().unwrap_or(0);
    Ok((seen, first_byte))
}
