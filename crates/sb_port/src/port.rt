//! The port through which a node sends over a ring.

ghost use Rattle.std.specs.Prelude.{◌≡◌, ◌≢◌, ◌≤◌, ◌+◌, true, false, not, [], ◌++◌, None, length};
ghost use Rattle.std.specs.Borrow.{sem, Lends};
ghost use Rattle.sb_packet.specs.Accesses.{accesses_of};
ghost use Rattle.sb_packet.specs.Journals.{is_request};
ghost use Rattle.sb_packet.specs.Messages.{message_of};
ghost use Rattle.sb_packet.specs.Spans.{word_count_of};
ghost use Rattle.sb_link.specs.Prefixes.{IsPrefix};
ghost use Rattle.sb_link.specs.Traffic.{IsPlanned, MayPass};
ghost use Rattle.sb_link.specs.PlanOf.{plan_of};
ghost use Rattle.sb_port.specs.Waiting.{offered};
ghost use Rattle.sb_port.specs.Ports.{IsFit, fresh_port, let_go, offered_words, owes, with_end};
ghost use Rattle.sb_port.specs.Turns.{TriesClose, TriesFirst, Turned};
ghost use Rattle.sb_port.specs.contracts.port.OutPort.{the_row};
ghost use Rattle.sb_port.specs.declared.port_turn.PortTurn.TheVariants.{Moved};

use crate::outbox::Outbox;
use crate::port_turn::PortTurn;
use crate::sound::is_sound;
use sb_link::{LinkPlan, Push, TxEnd};
use sb_packet::{Item, Op, Packet, word_count};
use std::marker::Model;

/// The port through which a node sends over a ring: what it is offered goes out in that order, and a Close behind it.
#[derive(Drop)]
pub struct OutPort<T: TxEnd> {
    // the sending end of the ring
    tx: T,
    // what is to be sent
    outbox: Outbox,
    // the port was told to close
    close_requested: bool,
    // the Close was sent
    close_sent: bool,
    // the number of words that were offered
    words_offered: u32,
}

impl<T: TxEnd> Model for OutPort<T> {
    ghost use Rattle.sb_port.specs.Ports.{PortSide};

    ghost Value = { PortSide };

    ghost view = { λ p. record {
      plan = T.planned p.tx;
      mark = T.mark p.tx;
      published = T.published p.tx;
      taken = T.taken p.tx;
      state = record {
        sent = T.sent p.tx;
        waiting = p.outbox;
        close_requested = p.close_requested;
        close_sent = p.close_sent;
        words_offered = p.words_offered;
      };
    } };
}

// the packet is an answer
fn is_answer(packet: &Packet) -> bool
    ensures answer { result ≡ not (is_request packet.now.cmd.op) }
{
    match packet.cmd.op {
        Op::RespRd | Op::RespWr => true,
        Op::ReqRd | Op::ReqWr | Op::ReqWrPosted | Op::ReqAtomic => false,
    }
}

// the ring is made for such a packet: it is of the ring's direction, and of one of its flows
fn is_planned(plan: &LinkPlan, packet: &Packet) -> bool
    ensures yes { result ≡ true → IsPlanned (plan_of plan.now) (message_of packet.now) }
    ensures no { IsPlanned (plan_of plan.now) (message_of packet.now) → result ≡ true }
{
    if is_answer(packet) != plan.up {
        return false;
    }
    plan.flows.allows(packet)
}

impl<T: TxEnd> OutPort<T> {
    /// A port over an end at which nothing was sent. Takes no memory, nor do the other calls.
    pub fn new(tx: T) -> OutPort<T>
        requires unsent { T.sent tx ≡ [] }
        ensures fresh { result ≡ fresh_port T.TxEnd tx }
        ensures fit { IsFit result.plan result.state }
    {
        let width = tx.plan().width;
        OutPort {
            tx,
            outbox: Outbox::new(width),
            close_requested: false,
            close_sent: false,
            words_offered: 0,
        }
    }

    /// The plan of the port's ring.
    pub fn plan(&self) -> &LinkPlan
        ensures plan { plan_of result.now ≡ self.now.plan }
    {
        self.tx.plan()
    }

    /// Whether the port owes no item, so that it can be offered one.
    pub fn ready(&self) -> bool
        ensures ready { result ≡ not (owes self.now.state) }
    {
        match self.outbox.first() {
            Some(_) => false,
            None => !self.close_requested || self.close_sent,
        }
    }

    /// Whether a packet may be offered: it is sound, of the ring's direction and of one of its flows, and its words are
    /// within the ring's budget, behind all that were offered before.
    pub fn passes(&self, packet: &Packet) -> bool
        requires fit { IsFit self.now.plan self.now.state }
        ensures yes { result ≡ true → MayPass self.now.plan (length (offered_words self.now)) (message_of packet.now) }
        ensures no { MayPass self.now.plan (length (offered_words self.now)) (message_of packet.now) → result ≡ true }
    {
        if !is_sound(packet) {
            return false;
        }
        let plan = self.tx.plan();
        if !is_planned(plan, packet) {
            return false;
        }
        if self.words_offered + word_count(&packet.cmd) > plan.budget {
            return false;
        }
        true
    }

    /// Takes a packet to send. The port is ready and was not told to close, and the packet passes.
    pub fn offer(&mut self, packet: &Packet)
        requires fit { IsFit self.old.plan self.old.state }
        requires ready { owes self.old.state ≡ false }
        requires untold { self.old.state.close_requested ≡ false }
        requires passes { MayPass self.old.plan (length (offered_words self.old)) (message_of packet.now) }
        ensures offered { self.new.state.waiting ≡ offered self.old.state.waiting (message_of packet.now) }
        ensures words_offered { self.new.state.words_offered ≡ self.old.state.words_offered + word_count_of packet.now.cmd }
        ensures rest { self.new
            ≡ record self.old {
              state = record self.old.state {
                waiting = self.new.state.waiting;
                words_offered = self.new.state.words_offered;
              };
            } }
        ensures words { offered_words self.new ≡ offered_words self.old ++ accesses_of packet.now }
        ensures fit { IsFit self.new.plan self.new.state }
    {
        self.outbox.offer(packet);
        self.words_offered += word_count(&packet.cmd);
    }

    // sends the first packet that is owed, where the ring has room
    #[inline(always)]
    fn send(&mut self) -> PortTurn
        requires fit { IsFit self.old.plan self.old.state }
        requires some { self.old.state.waiting.owed ≢ [] }
        ensures tried { TriesFirst self.old self.new result }
        ensures plan { self.new.plan ≡ self.old.plan }
        ensures mark { self.new.mark ≡ self.old.mark }
        ensures learnt { self.old.taken ≤ self.new.taken }
        ensures fit { IsFit self.new.plan self.new.state }
    {
        let packet = self.outbox.first().unwrap();
        match self.tx.try_push(&Item::Packet(*packet)) {
            Push::Done => {
                self.outbox.advance();
                PortTurn::Moved
            }
            Push::Full { sent, taken } => PortTurn::Full { sent, taken },
        }
    }

    // sends the Close, where the port was told to and the ring has room
    #[inline(always)]
    fn send_close(&mut self) -> PortTurn
        requires fit { IsFit self.old.plan self.old.state }
        requires none_owed { self.old.state.waiting.owed ≡ [] }
        requires none_held { self.old.state.waiting.held ≡ None }
        ensures tried { TriesClose self.old self.new result }
        ensures plan { self.new.plan ≡ self.old.plan }
        ensures mark { self.new.mark ≡ self.old.mark }
        ensures learnt { self.old.taken ≤ self.new.taken }
        ensures fit { IsFit self.new.plan self.new.state }
    {
        if !self.close_requested || self.close_sent {
            return PortTurn::Clear;
        }
        match self.tx.try_push(&Item::Close) {
            Push::Done => {
                self.close_sent = true;
                PortTurn::Moved
            }
            Push::Full { sent, taken } => PortTurn::Full { sent, taken },
        }
    }

    // sends at most one item, or lets go what is held
    #[inline(always)]
    fn step(&mut self, more: bool) -> PortTurn
        requires fit { IsFit self.old.plan self.old.state }
        ensures turned { Turned more self.old self.new result }
        ensures told { self.new.state.close_requested ≡ self.old.state.close_requested }
        ensures learnt { self.old.taken ≤ self.new.taken }
        ensures plan { self.new.plan ≡ self.old.plan }
        ensures mark { self.new.mark ≡ self.old.mark }
        ensures fit { IsFit self.new.plan self.new.state }
    {
        if self.outbox.first().is_some() {
            return self.send();
        }
        if more && !self.close_requested {
            return PortTurn::Clear;
        }
        if self.outbox.let_go() {
            let _ = self.send();
            return PortTurn::Moved;
        }
        self.send_close()
    }

    /// Sends at most one item. What is held for merging is let go where nothing was owed and either `more` is false, so
    /// that no more is to be expected, or the port was told to close. Where it answers Clear or Full, all that was sent
    /// is published.
    #[tactic(auto, using(crate::proofs::PortWords::turned_words, crate::proofs::PortWords::turned_goes_on))]
    pub fn turn(&mut self, more: bool) -> PortTurn
        requires fit { IsFit self.old.plan self.old.state }
        ensures turned { Turned more self.old self.new result }
        ensures words { offered_words self.new ≡ offered_words self.old }
        ensures published { result ≢ Moved → self.new.published ≡ self.new.state.sent }
        ensures goes_on { IsPrefix (let_go self.old.state) (let_go self.new.state) }
        ensures told { self.new.state.close_requested ≡ self.old.state.close_requested }
        ensures learnt { self.old.taken ≤ self.new.taken }
        ensures plan { self.new.plan ≡ self.old.plan }
        ensures mark { self.new.mark ≡ self.old.mark }
        ensures fit { IsFit self.new.plan self.new.state }
    {
        let answer = self.step(more);
        match answer {
            PortTurn::Moved => {}
            PortTurn::Clear | PortTurn::Full { .. } => self.tx.flush(),
        }
        answer
    }

    /// Tells the port to send a Close behind all that it owes and holds. It wasn't told before.
    pub fn close(&mut self)
        requires fit { IsFit self.old.plan self.old.state }
        requires untold { self.old.state.close_requested ≡ false }
        ensures told { self.new ≡ record self.old { state = record self.old.state { close_requested = true } } }
        ensures fit { IsFit self.new.plan self.new.state }
    {
        self.close_requested = true;
    }

    /// Whether the port was told to close.
    pub fn close_requested(&self) -> bool
        ensures close_requested { result ≡ self.now.state.close_requested }
    {
        self.close_requested
    }

    /// Whether the Close was sent.
    pub fn closed(&self) -> bool
        ensures closed { result ≡ self.now.state.close_sent }
    {
        self.close_sent
    }

    /// Lends the sending end, so that it can meet the receiving one. The port stays fit where the end keeps its plan and
    /// what was sent.
    pub fn end(&mut self) -> &mut T
        ensures plan { T.planned result.now ≡ self.old.plan }
        ensures mark { T.mark result.now ≡ self.old.mark }
        ensures published { T.published result.now ≡ self.old.published }
        ensures taken { T.taken result.now ≡ self.old.taken }
        ensures sent { T.sent result.now ≡ self.old.state.sent }
        ensures* writes_back { sem 𝓛 (Lends (the_row T.row T.TxEnd) T.row self.entry result (λ end. with_end T.TxEnd self.old end)) }
    {
        &mut self.tx
    }

    /// Gives the port up, and hands its end out.
    pub fn into_end(self) -> T
        ensures plan { T.planned result ≡ self.plan }
        ensures mark { T.mark result ≡ self.mark }
        ensures published { T.published result ≡ self.published }
        ensures taken { T.taken result ≡ self.taken }
        ensures sent { T.sent result ≡ self.state.sent }
    {
        let OutPort {
            tx,
            outbox: _,
            close_requested: _,
            close_sent: _,
            words_offered: _,
        } = self;
        tx
    }
}
