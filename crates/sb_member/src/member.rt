//! A node of a network.

ghost use Rattle.std.specs.Prelude.{◌≡◌, ◌<◌, length};
ghost use Rattle.std.specs.Borrow.{sem, Lends};
ghost use Rattle.sb_node.specs.Sides.{ring_side};
ghost use Rattle.sb_port.specs.contracts.port.OutPort.{the_row as port_row};
ghost use Rattle.sb_member.specs.Ends.{port_at, ports_of, ring_at, rings_of, member_with_port, member_with_ring};
ghost use Rattle.sb_member.specs.contracts.member.Member.{the_row};

use sb_device::Device;
use sb_drive::Node;
use sb_host::Host;
use sb_link::{Fabric, Turn};
use sb_port::OutPort;
use sb_router::Router;

/// A node of a network: a host, a router or a device.
#[derive(Drop)]
pub enum Member<F: Fabric> {
    Host(Host<F>),
    Router(Router<F>),
    Device(Device<F>),
}

impl<F: Fabric> Node for Member<F> {
    ghost use Rattle.sb_member.specs.Members.{IsKeptMember, IsMemberTurn, IsRestedMember, IsWholeMember, kept_member_same, kept_member_then, rested_member_same, rested_member_then};

    ghost whole = { λ m. IsWholeMember m };

    ghost reaches = { λ round x y. IsKeptMember round x y };

    ghost rests = { λ x y. IsRestedMember x y };

    ghost turns = { λ x round answer y. IsMemberTurn round x answer y };

    ghost reflexive = { λ round x. kept_member_same round x };

    ghost transitive = { λ round x y z a b. kept_member_then round x y z a b };

    ghost rests_reflexive = { λ x. rested_member_same x };

    ghost rests_transitive = { λ x y z a b. rested_member_then x y z a b };

    fn turn(&mut self, round: u32) -> Turn {
        match self {
            Member::Host(host) => host.turn(round),
            Member::Router(router) => router.turn(round),
            Member::Device(device) => device.turn(round),
        }
    }
}

impl<F: Fabric> Member<F> {
    /// Lends the port at a place of the node: of a router those of requests come first.
    pub fn port(&mut self, place: usize) -> &mut OutPort<F::Tx>
        requires within { place < length (ports_of self.old) }
        ensures value { result.now ≡ port_at self.old place }
        ensures* writes_back { sem 𝓛 (Lends (the_row F.row F.Tx.row F.Rx.row F.Fabric F.Tx.TxEnd F.Rx.RxEnd)
            (port_row F.Tx.row F.Tx.TxEnd) self.entry result (λ port. member_with_port self.old place port)) }
    {
        match self {
            Member::Host(host) => host.requests(),
            Member::Router(router) => router.port(place),
            Member::Device(device) => device.answers(),
        }
    }

    /// Lends the receiving end at a place of the node: of a router those of requests come first.
    pub fn end(&mut self, place: usize) -> &mut F::Rx
        requires within { place < length (rings_of self.old) }
        ensures value { ring_side F.Rx.RxEnd result.now ≡ ring_at self.old place }
        ensures* writes_back { sem 𝓛 (Lends (the_row F.row F.Tx.row F.Rx.row F.Fabric F.Tx.TxEnd F.Rx.RxEnd)
            F.Rx.row self.entry result (λ end. member_with_ring self.old place (ring_side F.Rx.RxEnd end))) }
    {
        match self {
            Member::Host(host) => host.answers(),
            Member::Router(router) => router.end(place),
            Member::Device(device) => device.requests(),
        }
    }
}
