//! Packets that are cut to a width.

ghost use Rattle.std.specs.Prelude.{◌≡◌, ◌≤◌, ◌<◌, ◌↔◌, IsTrue, IfSome, MatchOption, false, [], ◌∷◌};
ghost use Rattle.sb_packet.specs.Cuts.{cut_parts, is_atomic, is_one_part, words_in};
ghost use Rattle.sb_packet.specs.Messages.{message_of};
ghost use Rattle.sb_packet.specs.Spans.{span_of, word_count_of};
ghost use Rattle.sb_cut.specs.Widths.{IsCutWidth};
ghost use Rattle.sb_cut.specs.Works.{FitsIfIndivisible};

use crate::shapes::{is_indivisible, part};
use sb_packet::{Packet, span, word_count};
use std::marker::Model;

/// Cuts one packet after another into parts that speak of at most a width of 8, 16 or 32 bytes.
#[derive(Drop)]
pub struct Cutter {
    width: u8,
    // what isn't given yet
    rest: Option<Packet>,
}

impl Model for Cutter {
    ghost use Rattle.std.specs.Prelude.{IfSome};
    ghost use Rattle.sb_cut.specs.Widths.{IsCutWidth};
    ghost use Rattle.sb_cut.specs.Works.{Cutting, FitsIfIndivisible, parts_of};

    ghost Value = { Cutting };

    ghost view = { λ c. record { width = c.width; left = parts_of c.width c.rest } };

    ghost invariant = { λ c. IsCutWidth c.width × IfSome c.rest (FitsIfIndivisible c.width) };
}

// whether a packet is its only part
fn is_one_part(width: u8, packet: &Packet) -> bool
    ensures one { result ≡ is_one_part width (message_of packet.now) }
{
    is_indivisible(packet) || span(&packet.cmd) <= u32::from(width)
}

// the number of words in the first part of a packet that has more parts
fn first_words(width: u8, packet: &Packet) -> u32
    requires wide { IsCutWidth width }
    requires more { is_one_part width (message_of packet.now) ≡ false }
    ensures words { result ≡ words_in width (message_of packet.now) }
    ensures some { 0 < result }
    ensures fewer { result < word_count_of packet.now.cmd }
    ensures plain { is_atomic packet.now.cmd.op ≡ false }
{
    u32::from(width) >> packet.cmd.size
}

impl Cutter {
    /// A cutter to that width, in bytes: 8, 16 or 32. It has no part. Takes no memory, nor do the other calls.
    pub fn new(width: u8) -> Cutter
        requires wide { IsCutWidth width }
        ensures empty { result ≡ record { width = width; left = [] } }
    {
        Cutter { width, rest: None }
    }

    /// Whether no part is left.
    pub fn empty(&self) -> bool
        ensures empty { IsTrue result ↔ (self.now.left ≡ []) }
    {
        match self.rest {
            None => true,
            Some(_) => false,
        }
    }

    /// Whether a packet is its only part, so that it needs no cutter.
    pub fn is_one_part(&self, packet: &Packet) -> bool
        ensures one { result ≡ is_one_part self.now.width (message_of packet.now) }
    {
        is_one_part(self.width, packet)
    }

    /// Takes a packet, where no part is left of the one before. An atomic or exclusive packet, which is never cut, has to
    /// fit the width.
    pub fn take(&mut self, packet: &Packet)
        requires empty { self.old.left ≡ [] }
        requires fits { FitsIfIndivisible self.old.width packet.now }
        ensures parts { self.new
            ≡ record { width = self.old.width; left = cut_parts self.old.width (message_of packet.now) } }
    {
        self.rest = Some(*packet);
    }

    /// The next part. None exactly where no part is left.
    pub fn next(&mut self) -> Option<Packet>
        ensures next { MatchOption result ((self.old.left ≡ []) × (self.new.left ≡ []))
            (λ p. self.old.left ≡ message_of p ∷ self.new.left) }
        ensures narrow { IfSome result (λ p. span_of p.cmd ≤ self.old.width) }
        ensures width { self.new.width ≡ self.old.width }
    {
        let Some(packet) = &self.rest else {
            return None;
        };
        if is_one_part(self.width, packet) {
            return self.rest.take();
        }
        let count = first_words(self.width, packet);
        let others = word_count(&packet.cmd) - count;
        let first = part(packet, 0, count, false);
        self.rest = Some(part(packet, count, others, packet.cmd.eom));
        Some(first)
    }
}
