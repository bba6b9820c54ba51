//! What a port has to send.

ghost use Rattle.std.specs.Prelude.{◌≡◌, ◌≢◌, ◌↔◌, ◌++◌, IsTrue, MatchOption, None, [], ◌∷◌, drop};
ghost use Rattle.sb_packet.specs.Messages.{message_of};
ghost use Rattle.sb_cut.specs.Folds.{fold_all};
ghost use Rattle.sb_cut.specs.Works.{FitsIfIndivisible};
ghost use Rattle.sb_port.specs.Waiting.{IsWidth, listed_packet, nothing_waits, offered, released};

use sb_cut::{Cutter, Merged, Merger};
use sb_packet::Packet;
use std::marker::Model;

/// What a port has to send: the packet that is ready, if there is one, what is left to cut behind it, and the packet that
/// is held for merging. Parts are cut and joined one at a time, when the packet before them was sent.
#[derive(Drop)]
pub struct Outbox {
    cutter: Cutter,
    merger: Merger,
    ready: Option<Packet>,
}

impl Model for Outbox {
    ghost use Rattle.std.specs.Prelude.{◌≡◌, None, []};
    ghost use Rattle.sb_port.specs.Waiting.{Waiting, waiting_of};

    ghost Value = { Waiting };

    ghost view = { λ outbox. waiting_of outbox.ready outbox.cutter outbox.merger };

    ghost invariant = { λ outbox. (outbox.cutter.width ≡ outbox.merger.width) × (outbox.ready ≡ None → outbox.cutter.left ≡ []) };
}

// cuts and joins until a packet is ready, or nothing is left to cut
fn draw(cutter: &mut Cutter, merger: &mut Merger) -> Option<Packet>
    requires width { cutter.old.width ≡ merger.old.width }
    ensures out { (fold_all merger.old.width merger.old.held cutter.old.left).out
        ≡ listed_packet result ++ (fold_all merger.new.width merger.new.held cutter.new.left).out }
    ensures held { (fold_all merger.old.width merger.old.held cutter.old.left).held
        ≡ (fold_all merger.new.width merger.new.held cutter.new.left).held }
    ensures none_left { result ≡ None → cutter.new.left ≡ [] }
    ensures cutter_width { cutter.new.width ≡ cutter.old.width }
    ensures merger_width { merger.new.width ≡ merger.old.width }
{
    while let Some(part) = cutter.next() {
        if let Merged::Out(packet) = merger.take(&part) {
            return Some(packet);
        }
    }
    None
}

impl Outbox {
    /// Nothing to send over a ring of that width, in bytes.
    pub fn new(width: u8) -> Outbox
        requires wide { IsWidth width }
        ensures nothing { result ≡ nothing_waits width }
    {
        Outbox {
            cutter: Cutter::new(width),
            merger: Merger::new(width),
            ready: None,
        }
    }

    /// The first packet that is owed.
    pub fn first(&self) -> Option<&Packet>
        ensures first { MatchOption result (self.now.owed ≡ []) (λ p. self.now.owed ≡ message_of p.now ∷ drop 1 self.now.owed) }
    {
        self.ready.as_ref()
    }

    /// The first packet was sent.
    pub fn advance(&mut self)
        requires some { self.old.owed ≢ [] }
        ensures advanced { self.new ≡ record self.old { owed = drop 1 self.old.owed } }
    {
        self.ready = if self.cutter.empty() {
            None
        } else {
            draw(&mut self.cutter, &mut self.merger)
        };
    }

    /// Takes a packet, where none is owed. An atomic or exclusive packet, which is never cut, has to fit the width.
    pub fn offer(&mut self, packet: &Packet)
        requires ready { self.old.owed ≡ [] }
        requires fits { FitsIfIndivisible self.old.width packet.now }
        ensures offered { self.new ≡ offered self.old (message_of packet.now) }
    {
        if self.cutter.is_one_part(packet) {
            match self.merger.take(packet) {
                Merged::Held => {}
                Merged::Out(first) => self.ready = Some(first),
            }
        } else {
            self.cutter.take(packet);
            self.ready = draw(&mut self.cutter, &mut self.merger);
        }
    }

    /// Lets go what is held: the first packet that is owed then. Says whether a packet was held.
    pub fn let_go(&mut self) -> bool
        requires ready { self.old.owed ≡ [] }
        ensures released { self.new ≡ released self.old }
        ensures held { IsTrue result ↔ (self.old.held ≢ None) }
    {
        if !self.merger.held() {
            return false;
        }
        self.ready = self.merger.flush();
        true
    }
}
