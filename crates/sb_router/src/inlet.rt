//! A ring that comes into a router.

ghost use Rattle.std.specs.Prelude.{◌≡◌, ◌&&◌, [], is_none};
ghost use Rattle.std.specs.List.{list_all};
ghost use Rattle.std.specs.Option.{option_map};
ghost use Rattle.std.specs.Borrow.{sem, Lends};
ghost use Rattle.sb_packet.specs.Messages.{message_of};
ghost use Rattle.sb_link.specs.RingPlans.{message_flow};
ghost use Rattle.sb_link.specs.Plans.{flow_of};
ghost use Rattle.sb_node.specs.Sides.{ring_side};
ghost use Rattle.sb_router.specs.Popping.{FindsBesides, IsPopped};
ghost use Rattle.sb_router.specs.Lanes.{fresh_inlet};
ghost use Rattle.sb_router.specs.Steps.{emptied};
ghost use Rattle.sb_router.specs.Forwarding.{IsWholeInlet};
ghost use Rattle.sb_router.specs.contracts.inlet.Inlet.{the_row};

use crate::causes::lower;
use sb_link::{Flow, RxEnd};
use sb_node::{Findings, pop_ring};
use sb_packet::{Item, Packet};
use std::marker::Model;

/// A ring that comes into a router, and the packet that came by it and waits to be handed on.
#[derive(Drop)]
pub struct Inlet<U: RxEnd> {
    // the receiving end of the ring
    end: U,
    // the ring gave its Close
    ended: bool,
    // the packet that waits
    held: Option<Packet>,
}

impl<U: RxEnd> Model for Inlet<U> {
    ghost use Rattle.sb_node.specs.Sides.{ring_side};
    ghost use Rattle.sb_router.specs.Lanes.{InletState};

    ghost Value = { InletState };

    ghost view = { λ x. record { ring = ring_side U.RxEnd x.end; ended = x.ended; held = x.held } };
}

impl<U: RxEnd> Inlet<U> {
    /// A ring that comes in, at whose end nothing was received.
    pub(crate) fn new(end: U) -> Inlet<U>
        requires unreceived { U.received end ≡ [] }
        ensures fresh { result ≡ fresh_inlet U.RxEnd end }
    {
        Inlet {
            end,
            ended: false,
            held: None,
        }
    }

    /// Pops the ring once, where nothing of it is held and it didn't give its Close, and notes what it found.
    #[inline(always)]
    pub(crate) fn pop(&mut self, found: &mut Findings)
        requires whole { IsWholeInlet self.old }
        ensures popped { FindsBesides (IsPopped self.old self.new) found.old found.new }
    {
        if self.ended || self.held.is_some() {
            return;
        }
        let before = found.empty.take();
        match pop_ring(&mut self.end, found) {
            Some(Item::Packet(packet)) => self.held = Some(packet),
            Some(Item::Close) => self.ended = true,
            None => {}
        }
        found.empty = lower(before, found.empty);
    }

    /// The packet that waits to be handed on.
    pub(crate) fn held(&self) -> Option<Packet>
        ensures held { result ≡ self.now.held }
    {
        self.held
    }

    /// Lets go the packet that waits.
    pub(crate) fn empty(&mut self)
        ensures emptied { self.new ≡ emptied self.old }
    {
        self.held = None;
    }

    /// The flow that a packet is of which came by the ring.
    pub(crate) fn flow(&self, packet: &Packet) -> Option<Flow>
        ensures flow { option_map flow_of result ≡ message_flow self.now.ring.plan.flows (message_of packet.now) }
    {
        self.end.plan().flows.flow(packet)
    }

    /// Lends the receiving end, so that it can meet the sending one.
    pub(crate) fn end(&mut self) -> &mut U
        ensures value { ring_side U.RxEnd result.now ≡ self.old.ring }
        ensures* writes_back { sem 𝓛 (Lends (the_row U.row U.RxEnd) U.row
            self.entry result (λ end. record self.old { ring = ring_side U.RxEnd end })) }
    {
        &mut self.end
    }

    /// Gives the ring up, and hands its end out; a packet that waits is dropped.
    pub fn into_end(self) -> U
        ensures ring { ring_side U.RxEnd result ≡ self.ring }
    {
        let Inlet {
            end,
            ended: _,
            held: _,
        } = self;
        end
    }
}

/// Whether nothing more comes by any of these rings, and nothing is held of them.
pub fn are_silent<U: RxEnd>(inlets: &[Inlet<U>]) -> bool
    ensures silent { result ≡ list_all (λ x. x.ended && is_none x.held) inlets.now }
{
    inlets
        .iter()
        .all(|inlet| inlet.ended && inlet.held.is_none())
}

/// Whether each of these rings gave its Close.
pub fn have_ended<U: RxEnd>(inlets: &[Inlet<U>]) -> bool
    ensures ended { result ≡ list_all (λ x. x.ended) inlets.now }
{
    inlets.iter().all(|inlet| inlet.ended)
}
