//! A router over ends of any kind.

ghost use Rattle.std.specs.Prelude.{◌≡◌, ◌≢◌, ◌<◌, length};
ghost use Rattle.std.specs.Borrow.{sem, Lends};
ghost use Rattle.sb_link.specs.declared.answers.Turn.TheVariants.{Moved};
ghost use Rattle.sb_node.specs.Sides.{ring_side};
ghost use Rattle.sb_port.specs.contracts.port.OutPort.{the_row as port_row};
ghost use Rattle.sb_router.specs.RouterOf.{core_with_port, core_with_ring};
ghost use Rattle.sb_router.specs.Routers.{IsKeptRouter, IsRestedRouter, IsRouterTurn, IsWholeRouter, router_port, router_ports, router_ring, router_rings};
ghost use Rattle.sb_router.specs.contracts.router_core.RouterCore.{the_row};

use crate::causes::both;
use crate::lane::Lane;
use sb_link::{RxEnd, Turn, TxEnd};
use sb_port::OutPort;

/// A router over ends of any kind: its two directions, which have nothing in common but their turns.
#[derive(Drop)]
pub struct RouterCore<T: TxEnd, U: RxEnd> {
    pub requests: Lane<T, U>,
    pub answers: Lane<T, U>,
}

impl<T: TxEnd, U: RxEnd> RouterCore<T, U> {
    ghost use Rattle.sb_router.specs.RouterOf.{router_core_side};

    /// One turn. Takes no memory.
    pub(crate) fn turn(&mut self) -> Turn
        requires whole { IsWholeRouter (router_core_side self.old) }
        ensures turned { IsRouterTurn (router_core_side self.old) result (router_core_side self.new) }
        ensures kept { IsKeptRouter (router_core_side self.old) (router_core_side self.new) }
        ensures rested { result ≢ Moved → IsRestedRouter (router_core_side self.old) (router_core_side self.new) }
        ensures whole { IsWholeRouter (router_core_side self.new) }
    {
        let requests = self.requests.turn();
        let answers = self.answers.turn();
        if requests.moved || answers.moved {
            return Turn::Moved;
        }
        let found = both(&requests, &answers);
        let done = self.requests.is_done() & self.answers.is_done();
        found.turn(done)
    }

    /// Lends the port at a place: the ports of requests come first.
    pub(crate) fn port(&mut self, place: usize) -> &mut OutPort<T>
        requires within { place < length (router_ports (router_core_side self.old)) }
        ensures value { result.now ≡ router_port (router_core_side self.old) place }
        ensures* writes_back { sem 𝓛 (Lends (the_row T.row U.row T.TxEnd U.RxEnd) (port_row T.row T.TxEnd)
            self.entry result (λ port. core_with_port self.old place port)) }
    {
        let before = self.requests.outlets.len();
        if place < before {
            self.requests.port(place)
        } else {
            self.answers.port(place - before)
        }
    }

    /// Lends the end of the ring that comes in at a place: those of requests come first.
    pub(crate) fn end(&mut self, place: usize) -> &mut U
        requires within { place < length (router_rings (router_core_side self.old)) }
        ensures value { ring_side U.RxEnd result.now ≡ router_ring (router_core_side self.old) place }
        ensures* writes_back { sem 𝓛 (Lends (the_row T.row U.row T.TxEnd U.RxEnd) U.row
            self.entry result (λ end. core_with_ring self.old place (ring_side U.RxEnd end))) }
    {
        let before = self.requests.inlets.len();
        if place < before {
            self.requests.end(place)
        } else {
            self.answers.end(place - before)
        }
    }
}
