//! How far a host has come with its packets.

ghost use Rattle.std.specs.Prelude.{◌≡◌, ◌≤◌, ◌<◌, ◌+◌, ◌⊎◌, [], ◌∷◌, true, length, slice_index_or};
ghost use Rattle.sb_packet.specs.Messages.{message_of};
ghost use Rattle.sb_host.specs.declared.transaction_plan.TransactionPlan.{TransactionPlan};
ghost use Rattle.sb_host.specs.Progress.{HasComeTo, HasPassedOver, packets_left};
ghost use Rattle.sb_host.specs.Places.{asked_of};

use crate::script_plan::ScriptPlan;
use sb_packet::{BODY_BYTES, Packet, packet_of, packets};

/// The packet that a host offers next.
#[derive(Clone, Copy, Debug, PartialEq, Eq)]
pub struct Cursor {
    /// Its transaction, or the number of all of them where none is left.
    pub next: usize,
    /// Its place among the packets of that transaction.
    pub part: u32,
}

impl Cursor {
    /// Passes over the transactions that are next and aimed at no device.
    pub(crate) fn pass_over(&mut self, script_plan: &ScriptPlan)
        requires come { HasComeTo (asked_of script_plan.now) self.old.next self.old.part }
        ensures passed { HasPassedOver (asked_of script_plan.now) self.old.next self.new.next }
        ensures part { self.new.part ≡ self.old.part }
        ensures come { HasComeTo (asked_of script_plan.now) self.new.next self.new.part }
        ensures left { packets_left (asked_of script_plan.now) self.new.next self.new.part
            ≡ packets_left (asked_of script_plan.now) self.old.next self.old.part }
        ensures aimed { (d : TransactionPlan) → self.new.next < length script_plan.now.lines.items
            → (slice_index_or script_plan.now.lines.items self.new.next d).aimed ≡ true }
    {
        while self.next < script_plan.lines.len() && !script_plan.lines[self.next].aimed {
            self.next += 1;
        }
    }

    /// The next packet, of a transaction that is aimed at a device, and goes on behind it.
    pub(crate) fn issue(&mut self, script_plan: &ScriptPlan) -> Packet
        requires come { HasComeTo (asked_of script_plan.now) self.old.next self.old.part }
        requires some { self.old.next < length script_plan.now.lines.items }
        requires aimed { (d : TransactionPlan) → (slice_index_or script_plan.now.lines.items self.old.next d).aimed ≡ true }
        ensures packet { packets_left (asked_of script_plan.now) self.old.next self.old.part
            ≡ message_of result ∷ packets_left (asked_of script_plan.now) self.new.next self.new.part }
        ensures come { HasComeTo (asked_of script_plan.now) self.new.next self.new.part }
        ensures onward { self.old.next ≤ self.new.next }
        ensures step { (self.new.next ≡ self.old.next + 1) × (self.new.part ≡ 0)
            ⊎ (self.new.next ≡ self.old.next) × (self.new.part ≡ self.old.part + 1) }
    {
        let txn = &script_plan.lines[self.next].txn;
        let limit = BODY_BYTES as u8;
        let count = packets(txn, limit);
        let packet = packet_of(
            script_plan.id,
            script_plan.qos,
            script_plan.prot,
            self.next as u32,
            txn,
            limit,
            self.part,
        );
        self.part += 1;
        if self.part == count {
            self.next += 1;
            self.part = 0;
        }
        packet
    }
}
