//! The parts of nodes that were taken apart.

ghost use Rattle.std.specs.Prelude.{◌≡◌, ◌<◌, [], Some, IfOk, All, length, map, set, vec_capacity};
ghost use Rattle.sb_node.specs.Sides.{ring_side};
ghost use Rattle.sb_member.specs.declared.member.Member.TheVariants as members;
ghost use Rattle.sb_net.specs.Apart.{HasRoomFor, IsTakenApart, end_places, put_by, ring_ahead, ring_behind};

use sb_device::{Device, DeviceState};
use sb_host::{Host, HostParts, Transactions};
use sb_link::{Fabric, RxEnd, TxEnd};
use sb_member::Member;
use sb_port::OutPort;
use sb_router::{Inlet, Router, RouterEnds};
use std::alloc::{AllocError, Global};

/// The parts of nodes that were taken apart: the port in front of each ring and the end behind it, at the ring's number,
/// and what hosts and devices tell afterwards.
#[derive(Drop)]
pub struct Apart<F: Fabric> {
    pub ports: Vec<Option<OutPort<F::Tx>>>,
    pub ends: Vec<Option<F::Rx>>,
    pub hosts: Vec<Transactions>,
    pub devices: Vec<DeviceState>,
}

/// So many places at which nothing lies.
fn empty_places<A: Drop>(alloc: Global, count: usize) -> Result<Vec<Option<A>>, AllocError>
    ensures count { IfOk result (λ places. length places.items ≡ count) }
{
    let mut places = Vec::new(alloc);
    for _ in 0..count {
        places.push(None)?;
    }
    Ok(places)
}

impl<F: Fabric> Apart<F> {
    /// Room for the parts of nodes with so many rings between them, hosts and devices.
    ///
    /// # Errors
    ///
    /// `AllocError` where there isn't enough memory.
    pub fn new(
        alloc: Global,
        rings: usize,
        hosts: usize,
        devices: usize,
    ) -> Result<Apart<F>, AllocError>
        ensures ports { IfOk result (λ apart. length apart.ports.items ≡ rings) }
        ensures ends { IfOk result (λ apart. length apart.ends.items ≡ rings) }
        ensures no_hosts { IfOk result (λ apart. apart.hosts.items ≡ []) }
        ensures no_devices { IfOk result (λ apart. apart.devices.items ≡ []) }
        ensures hosts { IfOk result (λ apart. vec_capacity apart.hosts ≡ hosts) }
        ensures devices { IfOk result (λ apart. vec_capacity apart.devices ≡ devices) }
    {
        Ok(Apart {
            ports: empty_places(alloc, rings)?,
            ends: empty_places(alloc, rings)?,
            hosts: Vec::with_capacity(alloc, hosts)?,
            devices: Vec::with_capacity(alloc, devices)?,
        })
    }
}

/// Puts a port at its ring's number.
fn put_port<T: TxEnd>(ports: &mut Vec<Option<OutPort<T>>>, port: OutPort<T>)
    requires within { port.plan.ring < length ports.old.items }
    ensures put { ports.new.items ≡ set ports.old.items port.plan.ring (Some port) }
{
    let ring = usize::from(port.plan().ring);
    ports[ring] = Some(port);
}

/// Puts an end at its ring's number.
fn put_end<U: RxEnd>(ends: &mut Vec<Option<U>>, end: U)
    requires within { (U.planned end).ring < length ends.old.items }
    ensures put { ends.new.items ≡ set ends.old.items (U.planned end).ring (Some end) }
{
    let ring = usize::from(end.plan().ring);
    ends[ring] = Some(end);
}

/// Puts ports at their rings' numbers.
fn put_ports<T: TxEnd>(ports: &mut Vec<Option<OutPort<T>>>, more: Vec<OutPort<T>>)
    requires within { All (λ port. ring_ahead port < length ports.old.items) more.items }
    ensures put { ports.new.items ≡ put_by ring_ahead more.items ports.old.items }
{
    let mut more = more;
    while let Some(port) = more.pop() {
        put_port(ports, port);
    }
}

/// Puts the ends of rings that came into a router at their numbers.
fn put_inlets<U: RxEnd>(ends: &mut Vec<Option<U>>, more: Vec<Inlet<U>>)
    requires within { All (λ inlet. ring_behind inlet.ring < length ends.old.items) more.items }
    ensures put { end_places U.RxEnd ends.new.items
        ≡ put_by ring_behind (map (λ inlet. inlet.ring) more.items) (end_places U.RxEnd ends.old.items) }
{
    let mut more = more;
    while let Some(inlet) = more.pop() {
        put_end(ends, inlet.into_end());
    }
}

/// Takes a host apart.
fn take_host<F: Fabric>(host: Host<F>, apart: &mut Apart<F>)
    requires room { HasRoomFor (members.Host host) apart.old }
    ensures taken { IsTakenApart F.Rx.RxEnd (members.Host host) apart.old apart.new }
{
    let HostParts {
        transactions,
        requests,
        answers,
    } = host.into_parts();
    put_port(&mut apart.ports, requests);
    put_end(&mut apart.ends, answers);
    apart.hosts.push_reserved(transactions);
}

/// Takes a router apart.
fn take_router<F: Fabric>(router: Router<F>, apart: &mut Apart<F>)
    requires room { HasRoomFor (members.Router router) apart.old }
    ensures taken { IsTakenApart F.Rx.RxEnd (members.Router router) apart.old apart.new }
{
    let RouterEnds {
        requests_in,
        requests_out,
        answers_in,
        answers_out,
    } = router.into_ends();
    put_ports(&mut apart.ports, answers_out);
    put_ports(&mut apart.ports, requests_out);
    put_inlets(&mut apart.ends, answers_in);
    put_inlets(&mut apart.ends, requests_in);
}

/// Takes a device apart.
fn take_device<F: Fabric>(device: Device<F>, apart: &mut Apart<F>)
    requires room { HasRoomFor (members.Device device) apart.old }
    ensures taken { IsTakenApart F.Rx.RxEnd (members.Device device) apart.old apart.new }
{
    let (requests, answers, state) = device.into_parts();
    put_port(&mut apart.ports, answers);
    put_end(&mut apart.ends, requests);
    apart.devices.push_reserved(state);
}

/// Takes a node apart: its ports and ends go to their rings' numbers, and what it tells behind the others. Takes no
/// memory.
pub(crate) fn take_node<F: Fabric>(node: Member<F>, apart: &mut Apart<F>)
    requires room { HasRoomFor node apart.old }
    ensures taken { IsTakenApart F.Rx.RxEnd node apart.old apart.new }
{
    match node {
        Member::Host(host) => take_host(host, apart),
        Member::Router(router) => take_router(router, apart),
        Member::Device(device) => take_device(device, apart),
    }
}
