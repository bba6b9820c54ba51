//! A router at its links.

ghost use Rattle.std.specs.Prelude.{◌≡◌, ◌<◌, ℕ, true, false, All, Some, length, map, IfOk};
ghost use Rattle.sb_link.specs.RingPlans.{NetFlow};
ghost use Rattle.std.specs.Borrow.{sem, Lends};
ghost use Rattle.sb_node.specs.Sides.{ring_side};
ghost use Rattle.sb_port.specs.Ports.{fresh_port};
ghost use Rattle.sb_port.specs.contracts.port.OutPort.{the_row as port_row};
ghost use Rattle.sb_flow.specs.NetworkOf.{network_of};
ghost use Rattle.sb_flow.specs.Tables.{paths_of};
ghost use Rattle.sb_router.specs.Forwarding.{Forwards, Words};
ghost use Rattle.sb_router.specs.Lanes.{IsFreshPair, fresh_inlet};
ghost use Rattle.sb_router.specs.Ways.{IsTableOf, route_of};
ghost use Rattle.sb_router.specs.Routers.{IsWholeRouter, router_port, router_ports, router_ring, router_rings, router_with_port, router_with_ring};
ghost use Rattle.sb_router.specs.contracts.router.Router.{the_row};

use crate::ends::{ends_in, ends_out};
use crate::inlet::Inlet;
use crate::lane::Lane;
use crate::router_core::RouterCore;
use crate::routes::Routes;
use crate::table::routes;
use sb_drive::Node;
use sb_flow::{Bundle, Paths};
use sb_link::{Fabric, Turn};
use sb_port::{InLeg, OutLeg, OutPort};
use std::alloc::{AllocError, Global};
use std::marker::Model;

/// A router at its links. It hands on what comes, each flow by the link that leads on: requests towards their device,
/// and answers towards their host. Of each ring it holds at most one packet.
#[derive(Drop)]
pub struct Router<F: Fabric> {
    core: RouterCore<F::Tx, F::Rx>,
}

/// The ends of a router's rings, in the order of their places.
#[derive(Drop)]
pub struct RouterEnds<F: Fabric> {
    pub requests_in: Vec<Inlet<F::Rx>>,
    pub requests_out: Vec<OutPort<F::Tx>>,
    pub answers_in: Vec<Inlet<F::Rx>>,
    pub answers_out: Vec<OutPort<F::Tx>>,
}

impl<F: Fabric> Model for Router<F> {
    ghost use Rattle.sb_router.specs.Routers.{RouterSide};

    ghost Value = { RouterSide };

    ghost use Rattle.sb_router.specs.RouterOf.{router_core_side};

    ghost view = { λ r. router_core_side r.core };
}

impl<F: Fabric> Node for Router<F> {
    ghost use Rattle.sb_router.specs.Routers.{IsKeptRouter, IsRestedRouter, IsRouterTurn, IsWholeRouter, kept_router_same, kept_router_then, rested_router_same, rested_router_then};

    ghost whole = { λ r. IsWholeRouter r };

    ghost reaches = { λ round x y. IsKeptRouter x y };

    ghost turns = { λ x round answer y. IsRouterTurn x answer y };

    ghost rests = { λ x y. IsRestedRouter x y };

    ghost reflexive = { λ round x. kept_router_same x };

    ghost transitive = { λ round x y z a b. kept_router_then x y z a b };

    ghost rests_reflexive = { λ x. rested_router_same x };

    ghost rests_transitive = { λ x y z a b. rested_router_then x y z a b };

    fn turn(&mut self, round: u32) -> Turn {
        let _ = round;
        self.core.turn()
    }
}

// the links of the legs that lead to a router
fn links_in<F: Fabric>(alloc: Global, legs: &[InLeg<F>]) -> Result<Vec<u8>, AllocError>
    ensures links { IfOk result (λ links. links.items ≡ map (λ leg. leg.link) legs.now) }
{
    let links = legs.iter().map(|leg| leg.link).collect(alloc)?;
    Ok(links)
}

// the links of the legs that lead on from it
fn links_out<F: Fabric>(alloc: Global, legs: &[OutLeg<F>]) -> Result<Vec<u8>, AllocError>
    ensures links { IfOk result (λ links. links.items ≡ map (λ leg. leg.link) legs.now) }
{
    let links = legs.iter().map(|leg| leg.link).collect(alloc)?;
    Ok(links)
}

impl<F: Fabric> Router<F> {
    /// The router of a bundle with that number, at the legs of its links, at which nothing was sent or received. The
    /// paths are those of the bundle.
    ///
    /// # Errors
    ///
    /// `AllocError` where there isn't enough memory; then the legs are dropped.
    pub fn new(
        alloc: Global,
        number: u8,
        bundle: &Bundle,
        paths: &Paths,
        ins: Vec<InLeg<F>>,
        outs: Vec<OutLeg<F>>,
    ) -> Result<Router<F>, AllocError>
        requires made { paths.now ≡ paths_of (network_of bundle.now) }
        requires ins { All (λ leg. IsFreshPair F.Tx.TxEnd F.Rx.RxEnd leg.answers leg.requests) ins.items }
        requires outs { All (λ leg. IsFreshPair F.Tx.TxEnd F.Rx.RxEnd leg.requests leg.answers) outs.items }
        ensures whole { IfOk result (λ r. IsWholeRouter r) }
        ensures requests_in { IfOk result (λ r. r.requests.lane.inlets ≡ map (λ leg. fresh_inlet F.Rx.RxEnd leg.requests) ins.items) }
        ensures requests_out { IfOk result (λ r. r.requests.lane.outlets ≡ map (λ leg. fresh_port F.Tx.TxEnd leg.requests) outs.items) }
        ensures answers_in { IfOk result (λ r. r.answers.lane.inlets ≡ map (λ leg. fresh_inlet F.Rx.RxEnd leg.answers) outs.items) }
        ensures answers_out { IfOk result (λ r. r.answers.lane.outlets ≡ map (λ leg. fresh_port F.Tx.TxEnd leg.answers) ins.items) }
        ensures down { IfOk result (λ r. IsTableOf (network_of bundle.now) false number (map (λ leg. leg.link) outs.items)
            r.requests.rows) }
        ensures up { IfOk result (λ r. IsTableOf (network_of bundle.now) true number (map (λ leg. leg.link) ins.items)
            r.answers.rows) }
        ensures forwards_requests { IfOk result (λ r. (words : Words) → Forwards words (route_of r.requests.rows) r.requests.lane) }
        ensures forwards_answers { IfOk result (λ r. (words : Words) → Forwards words (route_of r.answers.rows) r.answers.lane) }
    {
        let to = links_out(alloc, outs.as_slice())?;
        let from = links_in(alloc, ins.as_slice())?;
        let down = routes(alloc, bundle, paths, false, number, to.as_slice())?;
        let up = routes(alloc, bundle, paths, true, number, from.as_slice())?;
        Router::with_routes(alloc, down, up, ins, outs)
    }

    // a router whose flows go by these tables
    fn with_routes(
        alloc: Global,
        down: Routes,
        up: Routes,
        ins: Vec<InLeg<F>>,
        outs: Vec<OutLeg<F>>,
    ) -> Result<Router<F>, AllocError>
        requires ins { All (λ leg. IsFreshPair F.Tx.TxEnd F.Rx.RxEnd leg.answers leg.requests) ins.items }
        requires outs { All (λ leg. IsFreshPair F.Tx.TxEnd F.Rx.RxEnd leg.requests leg.answers) outs.items }
        requires down { (f : NetFlow) (o : ℕ) → route_of down.rows.items f ≡ Some o → o < length outs.items }
        requires up { (f : NetFlow) (o : ℕ) → route_of up.rows.items f ≡ Some o → o < length ins.items }
        ensures whole { IfOk result (λ r. IsWholeRouter r) }
        ensures requests_in { IfOk result (λ r. r.requests.lane.inlets ≡ map (λ leg. fresh_inlet F.Rx.RxEnd leg.requests) ins.items) }
        ensures requests_out { IfOk result (λ r. r.requests.lane.outlets ≡ map (λ leg. fresh_port F.Tx.TxEnd leg.requests) outs.items) }
        ensures answers_in { IfOk result (λ r. r.answers.lane.inlets ≡ map (λ leg. fresh_inlet F.Rx.RxEnd leg.answers) outs.items) }
        ensures answers_out { IfOk result (λ r. r.answers.lane.outlets ≡ map (λ leg. fresh_port F.Tx.TxEnd leg.answers) ins.items) }
        ensures down { IfOk result (λ r. r.requests.rows ≡ down.rows.items) }
        ensures up { IfOk result (λ r. r.answers.rows ≡ up.rows.items) }
        ensures forwards_requests { IfOk result (λ r. (words : Words) → Forwards words (route_of r.requests.rows) r.requests.lane) }
        ensures forwards_answers { IfOk result (λ r. (words : Words) → Forwards words (route_of r.answers.rows) r.answers.lane) }
    {
        let before = ends_in(alloc, ins)?;
        let behind = ends_out(alloc, outs)?;
        Ok(Router {
            core: RouterCore {
                requests: Lane {
                    inlets: before.inlets,
                    outlets: behind.outlets,
                    routes: down,
                },
                answers: Lane {
                    inlets: behind.inlets,
                    outlets: before.outlets,
                    routes: up,
                },
            },
        })
    }

    /// Lends the port at a place, so that its end can meet the other one: the ports of requests come first.
    pub fn port(&mut self, place: usize) -> &mut OutPort<F::Tx>
        requires within { place < length (router_ports self.old) }
        ensures value { result.now ≡ router_port self.old place }
        ensures* writes_back { sem 𝓛 (Lends (the_row F.row F.Tx.row F.Rx.row F.Fabric F.Tx.TxEnd F.Rx.RxEnd) (port_row F.Tx.row F.Tx.TxEnd)
            self.entry result (λ port. router_with_port self.old place port)) }
    {
        let core = &mut self.core;
        core.port(place)
    }

    /// Lends the end of the ring that comes in at a place, so that it can meet the other one: those of requests come first.
    pub fn end(&mut self, place: usize) -> &mut F::Rx
        requires within { place < length (router_rings self.old) }
        ensures value { ring_side F.Rx.RxEnd result.now ≡ router_ring self.old place }
        ensures* writes_back { sem 𝓛 (Lends (the_row F.row F.Tx.row F.Rx.row F.Fabric F.Tx.TxEnd F.Rx.RxEnd) F.Rx.row
            self.entry result (λ end. router_with_ring self.old place (ring_side F.Rx.RxEnd end))) }
    {
        let core = &mut self.core;
        core.end(place)
    }

    /// Takes the router apart, into the ends of its rings. Takes no memory.
    pub fn into_ends(self) -> RouterEnds<F>
        ensures requests_in { result.requests_in.items ≡ self.requests.lane.inlets }
        ensures requests_out { result.requests_out.items ≡ self.requests.lane.outlets }
        ensures answers_in { result.answers_in.items ≡ self.answers.lane.inlets }
        ensures answers_out { result.answers_out.items ≡ self.answers.lane.outlets }
    {
        let Router { core } = self;
        let RouterCore { requests, answers } = core;
        let Lane {
            inlets: requests_in,
            outlets: requests_out,
            routes: _,
        } = requests;
        let Lane {
            inlets: answers_in,
            outlets: answers_out,
            routes: _,
        } = answers;
        RouterEnds {
            requests_in,
            requests_out,
            answers_in,
            answers_out,
        }
    }
}
