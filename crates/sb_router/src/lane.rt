//! One direction of a router.

ghost use Rattle.std.specs.Prelude.{◌≡◌, ◌<◌, ◌&&◌, All, true, false, not, vec_len, set};
ghost use Rattle.std.specs.List.{list_all};
ghost use Rattle.sb_port.specs.Ports.{owes};
ghost use Rattle.sb_router.specs.Popping.{FindsBesides, IsHanded, IsOutletSet, IsOutletTurned, IsPoppedAt, IsToldAt};
ghost use Rattle.sb_router.specs.Lanes.{inlet_at, next_place, outlet_at};
ghost use Rattle.sb_router.specs.RouterOf.{lane_of, lane_route};
ghost use Rattle.sb_router.specs.Steps.{IsHandedAt, IsSilent, emptied};
ghost use Rattle.sb_router.specs.Turning.{HasClosed, HasHanded, HasPoppedEach, HasTurned, IsLaneTurn};
ghost use Rattle.sb_router.specs.Forwarding.{IsWholeLane};

use crate::inlet::{Inlet, are_silent, have_ended};
use crate::outlet::{close_outlet, hand_to, have_sent_close, turn_outlet};
use crate::routes::Routes;
use sb_link::{RxEnd, TxEnd};
use sb_node::Findings;
use sb_packet::Packet;
use sb_port::OutPort;

/// One direction of a router, requests or answers: the rings that come in, those that go out, and where each flow goes.
#[derive(Drop)]
pub struct Lane<T: TxEnd, U: RxEnd> {
    pub inlets: Vec<Inlet<U>>,
    pub outlets: Vec<OutPort<T>>,
    pub routes: Routes,
}

impl<T: TxEnd, U: RxEnd> Lane<T, U> {
    // pops the ring at a place, and notes what it found
    fn pop_at(&mut self, place: usize, found: &mut Findings)
        requires whole { IsWholeLane (lane_route self.old) (lane_of self.old) }
        requires within { place < vec_len self.old.inlets }
        ensures routes { self.new.routes ≡ self.old.routes }
        ensures popped { FindsBesides (IsPoppedAt place (lane_of self.old) (lane_of self.new)) found.old found.new }
    {
        self.inlets[place].pop(found);
    }

    // the place of the port to which a packet goes that came by the ring at a place
    fn next(&self, place: usize, packet: &Packet) -> Option<usize>
        requires whole { IsWholeLane (lane_route self.now) (lane_of self.now) }
        requires within { place < vec_len self.now.inlets }
        ensures next { result ≡ next_place (lane_route self.now) (inlet_at (lane_of self.now) place).ring.plan packet.now }
    {
        let flow = self.inlets[place].flow(packet)?;
        self.routes.place(&flow)
    }

    // lets go what is held of the ring at a place
    fn empty_at(&mut self, place: usize)
        requires within { place < vec_len self.old.inlets }
        ensures routes { self.new.routes ≡ self.old.routes }
        ensures outlets { self.new.outlets ≡ self.old.outlets }
        ensures emptied { (lane_of self.new).inlets ≡ set (lane_of self.old).inlets place (emptied (inlet_at (lane_of self.old) place)) }
    {
        self.inlets[place].empty();
    }

    // the port at a place can be offered a packet
    fn is_ready_at(&self, place: usize) -> bool
        requires whole { IsWholeLane (lane_route self.now) (lane_of self.now) }
        requires within { place < vec_len self.now.outlets }
        ensures ready { result ≡ not (owes (outlet_at (lane_of self.now) place).state) }
    {
        self.outlets[place].ready()
    }

    // hands a packet to the port at a place
    fn hand_to_at(&mut self, place: usize, packet: &Packet)
        requires whole { IsWholeLane (lane_route self.old) (lane_of self.old) }
        requires within { place < vec_len self.old.outlets }
        requires ready { owes (outlet_at (lane_of self.old) place).state ≡ false }
        requires untold { (outlet_at (lane_of self.old) place).state.close_requested ≡ false }
        ensures routes { self.new.routes ≡ self.old.routes }
        ensures inlets { self.new.inlets ≡ self.old.inlets }
        ensures handed { IsHandedAt place (lane_of self.old) (lane_of self.new) packet.now }
    {
        hand_to(&mut self.outlets[place], packet);
    }

    // hands on what is held of the ring at a place, and says whether it did
    fn hand_at(&mut self, place: usize) -> bool
        requires whole { IsWholeLane (lane_route self.old) (lane_of self.old) }
        requires within { place < vec_len self.old.inlets }
        ensures routes { self.new.routes ≡ self.old.routes }
        ensures handed { IsHanded (lane_route self.old) place (lane_of self.old) (lane_of self.new) result }
    {
        let Some(packet) = self.inlets[place].held() else {
            return false;
        };
        let Some(next) = self.next(place, &packet) else {
            self.empty_at(place);
            return true;
        };
        if !self.is_ready_at(next) {
            return false;
        }
        self.hand_to_at(next, &packet);
        self.empty_at(place);
        true
    }

    // pops each ring once
    fn pop_each(&mut self) -> Findings
        requires whole { IsWholeLane (lane_route self.old) (lane_of self.old) }
        ensures routes { self.new.routes ≡ self.old.routes }
        ensures popped { HasPoppedEach (lane_route self.old) (lane_of self.old) (lane_of self.new) result }
    {
        let mut found = Findings::new();
        for place in 0..self.inlets.len() {
            self.pop_at(place, &mut found);
        }
        found
    }

    // hands on what is held of each ring, and says whether it did
    fn hand_each(&mut self) -> bool
        requires whole { IsWholeLane (lane_route self.old) (lane_of self.old) }
        ensures routes { self.new.routes ≡ self.old.routes }
        ensures handed { HasHanded (lane_route self.old) (lane_of self.old) (lane_of self.new) result }
    {
        let mut moved = false;
        for place in 0..self.inlets.len() {
            let handed = self.hand_at(place);
            moved |= handed;
        }
        moved
    }

    // nothing more comes by any ring, and nothing is held
    fn is_silent(&self) -> bool
        ensures yes { result ≡ true → All IsSilent (lane_of self.now).inlets }
        ensures no { All IsSilent (lane_of self.now).inlets → result ≡ true }
    {
        are_silent(&self.inlets)
    }

    // tells the port at a place to close
    fn close_at(&mut self, place: usize)
        requires whole { IsWholeLane (lane_route self.old) (lane_of self.old) }
        requires within { place < vec_len self.old.outlets }
        ensures routes { self.new.routes ≡ self.old.routes }
        ensures told { IsToldAt place (lane_of self.old) (lane_of self.new) }
    {
        close_outlet(&mut self.outlets[place]);
    }

    // tells all ports to close, where nothing more comes
    fn close_each(&mut self)
        requires whole { IsWholeLane (lane_route self.old) (lane_of self.old) }
        ensures routes { self.new.routes ≡ self.old.routes }
        ensures closed { HasClosed (lane_route self.old) (lane_of self.old) (lane_of self.new) }
    {
        if !self.is_silent() {
            return;
        }
        for place in 0..self.outlets.len() {
            self.close_at(place);
        }
    }

    // turns the port at a place, and notes what it found
    fn turn_at(&mut self, place: usize, more: bool, found: &mut Findings)
        requires whole { IsWholeLane (lane_route self.old) (lane_of self.old) }
        requires within { place < vec_len self.old.outlets }
        ensures routes { self.new.routes ≡ self.old.routes }
        ensures set { IsOutletSet place (lane_of self.old) (lane_of self.new) }
        ensures turned { FindsBesides (IsOutletTurned more (outlet_at (lane_of self.old) place) (outlet_at (lane_of self.new) place))
            found.old found.new }
    {
        turn_outlet(&mut self.outlets[place], more, found);
    }

    // turns each port once, and notes what it found
    fn turn_each(&mut self, more: bool, found: &mut Findings)
        requires whole { IsWholeLane (lane_route self.old) (lane_of self.old) }
        ensures routes { self.new.routes ≡ self.old.routes }
        ensures turned { FindsBesides (HasTurned more (lane_of self.old) (lane_of self.new)) found.old found.new }
    {
        for place in 0..self.outlets.len() {
            self.turn_at(place, more, found);
        }
    }

    /// Takes one turn: pops each ring of which nothing is held, hands on what is held to the ports that are ready,
    /// tells the ports to close once nothing more comes, and turns each port once. Takes no memory.
    pub(crate) fn turn(&mut self) -> Findings
        requires whole { IsWholeLane (lane_route self.old) (lane_of self.old) }
        ensures routes { self.new.routes ≡ self.old.routes }
        ensures turned { IsLaneTurn (lane_route self.old) (lane_of self.old) (lane_of self.new) result }
        ensures whole { IsWholeLane (lane_route self.old) (lane_of self.new) }
    {
        let mut found = self.pop_each();
        let handed = self.hand_each();
        found.moved |= handed;
        self.close_each();
        let more = found.moved;
        self.turn_each(more, &mut found);
        found
    }

    /// Whether each ring gave its Close and each port sent one.
    pub fn is_done(&self) -> bool
        ensures done { result ≡ (list_all (λ port. port.state.close_sent) (lane_of self.now).outlets
            && list_all (λ x. x.ended) (lane_of self.now).inlets) }
    {
        have_sent_close(&self.outlets) & have_ended(&self.inlets)
    }
}
