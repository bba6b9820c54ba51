//! Packets that are merged up to a width.

ghost use Rattle.std.specs.Prelude.{◌≡◌, ◌≢◌, ◌≤◌, ◌↔◌, IsTrue, MatchOption, None, Some};
ghost use Rattle.sb_word.specs.Words.{opcode_of};
ghost use Rattle.sb_packet.specs.Answers.{same_bool};
ghost use Rattle.sb_packet.specs.Messages.{message_of};
ghost use Rattle.sb_packet.specs.Spans.{span_of};
ghost use Rattle.sb_cut.specs.Widths.{IsCutWidth};
ghost use Rattle.sb_cut.specs.Merges.{begins_where_ends, is_alike, is_mergeable};
ghost use Rattle.sb_cut.specs.Folds.{take_one};
ghost use Rattle.sb_cut.specs.Works.{out_by};

use crate::shapes::{is_indivisible, sum};
use sb_packet::{Op, Packet, span};
use std::marker::Model;

/// What became of a packet that a merger took.
#[derive(Clone, Copy, Debug, PartialEq, Eq)]
pub enum Merged {
    /// It is held: alone, or merged with the one that was held.
    Held,
    /// It is held alone, and the packet that was held goes out.
    Out(Packet),
}

/// Holds one packet back, and merges it with those that go on where it ends, while they fit a width of 8, 16 or 32 bytes.
#[derive(Drop)]
pub struct Merger {
    width: u8,
    kept: Option<Packet>,
}

impl Model for Merger {
    ghost use Rattle.std.specs.Option.{option_map};
    ghost use Rattle.sb_packet.specs.Messages.{message_of};
    ghost use Rattle.sb_cut.specs.Widths.{IsCutWidth};
    ghost use Rattle.sb_cut.specs.Works.{Merging};

    ghost Value = { Merging };

    ghost view = { λ m. record { width = m.width; held = option_map message_of m.kept } };

    ghost invariant = { λ m. IsCutWidth m.width };
}

// the opcode's number
fn opcode(op: Op) -> u8
    ensures opcode { result ≡ opcode_of op }
{
    match op {
        Op::ReqRd => 1,
        Op::RespRd => 2,
        Op::ReqWr => 3,
        Op::RespWr => 4,
        Op::ReqWrPosted => 5,
        Op::ReqAtomic => 9,
    }
}

// both are true, or both are false
fn same(a: bool, b: bool) -> bool
    ensures same { result ≡ same_bool a b }
{
    if a { b } else { !b }
}

// both are alike in all that the parts of one packet share
fn is_alike(a: &Packet, b: &Packet) -> bool
    ensures alike { result ≡ is_alike (message_of a.now) (message_of b.now) }
{
    opcode(a.cmd.op) == opcode(b.cmd.op)
        && a.cmd.size == b.cmd.size
        && a.cmd.host == b.cmd.host
        && a.cmd.qos == b.cmd.qos
        && a.cmd.prot == b.cmd.prot
        && same(a.cmd.eof, b.cmd.eof)
        && a.cmd.tail == b.cmd.tail
}

// b begins where a ends, at both addresses
fn begins_where_ends(a: &Packet, b: &Packet) -> bool
    ensures begins { result ≡ begins_where_ends (message_of a.now) (message_of b.now) }
{
    let bytes = u64::from(span(&a.cmd));
    b.dst == a.dst + bytes && b.src == a.src + bytes
}

// a and then b can be merged
#[inline(always)]
fn is_mergeable(width: u8, a: &Packet, b: &Packet) -> bool
    ensures mergeable { result ≡ is_mergeable width (message_of a.now) (message_of b.now) }
{
    begins_where_ends(a, b)
        && is_alike(a, b)
        && !is_indivisible(a)
        && !is_indivisible(b)
        && !a.cmd.eom
        && span(&a.cmd) + span(&b.cmd) <= u32::from(width)
}

impl Merger {
    /// A merger up to that width, in bytes: 8, 16 or 32. It holds nothing. Takes no memory, nor do the other calls.
    pub fn new(width: u8) -> Merger
        requires wide { IsCutWidth width }
        ensures nothing { result ≡ record { width = width; held = None } }
    {
        Merger { width, kept: None }
    }

    /// Whether a packet is held.
    pub fn held(&self) -> bool
        ensures held { IsTrue result ↔ (self.now.held ≢ None) }
    {
        self.kept.is_some()
    }

    /// Takes a packet that fits the width: where one is held and both can be merged, both are held as one, and else the
    /// held one goes out and this one is held.
    #[inline(always)]
    pub fn take(&mut self, packet: &Packet) -> Merged
        requires narrow { span_of packet.now.cmd ≤ self.old.width }
        ensures held { self.new.held ≡ (take_one self.old.width self.old.held (message_of packet.now)).held }
        ensures out { out_by result ≡ (take_one self.old.width self.old.held (message_of packet.now)).out }
        ensures width { self.new.width ≡ self.old.width }
    {
        let Some(first) = &mut self.kept else {
            self.kept = Some(*packet);
            return Merged::Held;
        };
        if is_mergeable(self.width, first, packet) {
            *first = sum(first, packet);
            return Merged::Held;
        }
        let out = Merged::Out(*first);
        *first = *packet;
        out
    }

    /// Lets go what is held. None exactly where nothing is held.
    pub fn flush(&mut self) -> Option<Packet>
        ensures out { MatchOption result (self.old.held ≡ None) (λ p. self.old.held ≡ Some (message_of p)) }
        ensures held { self.new ≡ record { width = self.old.width; held = None } }
    {
        self.kept.take()
    }
}
