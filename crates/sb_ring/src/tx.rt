//! The sending end of a ring.

ghost use Rattle.std.specs.Prelude.{◌≡◌, ◌+◌, ◌*◌, ◌<◌, ◌≤◌, true, false, [], ◌∷◌, ◌++◌, length, Some};
ghost use Rattle.std.specs.Arc.{arc_value};
ghost use Rattle.sb_link.specs.Prefixes.{IsPrefix};
ghost use Rattle.sb_link.specs.Traffic.{AreInTurn, MayFollow};
ghost use Rattle.sb_link.specs.Ends.{Pushed};
ghost use Rattle.sb_packet.specs.declared.item.Item.{Item};
ghost use Rattle.sb_packet.specs.declared.item.Item.TheVariants.{Close};
ghost use Rattle.sb_link.specs.PlanOf.{plan_of};
ghost use Rattle.sb_ring.specs.Layout.{batch_size, slot_width, slots_word};
ghost use Rattle.sb_ring.specs.Rule.{sent_of};
ghost use Rattle.sb_ring.specs.declared.view.Role.TheVariants.{Producer};

use crate::layout::{BATCH_SIZE, SLOT_WIDTH, SLOTS_WORD};
use crate::producer::{load_head, store_item, store_tail};
use crate::rule::{RingSeat, RingTable};
use sb_link::{LinkPlan, Push, TxEnd};
use sb_packet::Item;
use std::sync::Arc;

/// The sending end of a ring. It may be on another thread than the receiving end. What it sent is published in batches:
/// fewer than eight items, and fewer than the ring has places, stay unpublished after a call.
#[derive(Drop)]
pub struct RingTx {
    pub(crate) plan: LinkPlan,
    pub(crate) table: Arc<RingTable>,
    // the seat with which it steps: what was sent stands in its view alone
    pub(crate) seat: RingSeat,
    // the number of items that were sent
    pub(crate) sent: u32,
    // the number of items that were sent and not published
    pub(crate) unpublished: u32,
    // the count of items taken that it loaded last
    pub(crate) taken: u32,
    ghost of_table: { seat.table_id ≡ (arc_value table).shared.table_id },
    ghost size: { (arc_value table).shared.table_id.words ≡ slots_word + plan.capacity * slot_width },
    ghost ruled: { (arc_value table).shared.key ≡ plan },
    ghost role: { seat.me.0.role ≡ Producer },
    ghost planned: { seat.me.0.plan ≡ Some plan },
    ghost between: { seat.me.0.part ≡ [] },
    ghost counted: { sent ≡ length (sent_of seat.me.0) },
    ghost counted_ahead: { unpublished ≡ length seat.me.0.ahead },
    ghost learnt: { taken ≡ seat.me.0.learnt },
    ghost taken_were_sent: { taken ≤ sent },
    ghost within: { sent ≤ taken + plan.capacity },
    ghost in_turn: { AreInTurn (plan_of plan) (sent_of seat.me.0) },
    ghost few: { sent ≤ plan.budget + 1 },
    ghost batch: { unpublished < batch_size },
    ghost batch_fits: { unpublished < plan.capacity },
}

// whether it is time to publish: so many unpublished items are a whole batch, or the item sent last ends the traffic
fn is_due(unpublished: u32, capacity: u16, item: &Item) -> bool
    ensures batch { result ≡ false → unpublished < batch_size }
    ensures batch_fits { result ≡ false → unpublished < capacity }
    ensures closed { item.now ≡ Close → result ≡ true }
{
    match item {
        Item::Packet(_) => unpublished >= BATCH_SIZE || unpublished >= u32::from(capacity),
        Item::Close => true,
    }
}

impl RingTx {
    // whether there is a place, by the count of taken items that it keeps; where that says no, it is loaded again
    fn has_room(&mut self) -> bool
        ensures room { result ≡ true → length (sent_of self.old.seat.me.0) < self.new.seat.me.0.learnt + self.old.plan.capacity }
        ensures full { result ≡ false → length (sent_of self.old.seat.me.0) ≡ self.new.seat.me.0.learnt + self.old.plan.capacity }
        ensures loaded { result ≡ false → self.new.seat.me.0.loads ≡ self.old.seat.me.0.loads + 1 }
        ensures learnt { self.old.seat.me.0.learnt ≤ self.new.seat.me.0.learnt }
        ensures sent { sent_of self.new.seat.me.0 ≡ sent_of self.old.seat.me.0 }
        ensures published { self.new.seat.me.0.items ≡ self.old.seat.me.0.items }
        ensures plan { self.new.plan ≡ self.old.plan }
        ensures table { self.new.seat.table_id ≡ self.old.seat.table_id }
    {
        let capacity = u32::from(self.plan.capacity);
        if self.sent - self.taken < capacity {
            return true;
        }
        let table = &*self.table;
        let words = &table.shared;
        let taken = load_head(words, &mut self.seat) as u32;
        self.taken = taken;
        self.sent - taken < capacity
    }

    /// Publishes all that was sent.
    pub(crate) fn publish(&mut self)
        ensures published { self.new.seat.me.0.ahead ≡ [] }
        ensures sent { sent_of self.new.seat.me.0 ≡ sent_of self.old.seat.me.0 }
        ensures learnt { self.new.seat.me.0.learnt ≡ self.old.seat.me.0.learnt }
        ensures plan { self.new.plan ≡ self.old.plan }
        ensures table { self.new.seat.table_id ≡ self.old.seat.table_id }
    {
        if self.unpublished == 0 {
            return;
        }
        let table = &*self.table;
        let words = &table.shared;
        store_tail(words, &mut self.seat, u64::from(self.sent));
        self.unpublished = 0;
    }

    // answers that the ring is full, behind what was left to publish
    fn refuse(&mut self) -> Push
        requires full { length (sent_of self.old.seat.me.0) ≡ self.old.seat.me.0.learnt + self.old.plan.capacity }
        ensures published { self.new.seat.me.0.ahead ≡ [] }
        ensures sent { sent_of self.new.seat.me.0 ≡ sent_of self.old.seat.me.0 }
        ensures full { (item : Item)
            → Pushed self.old.plan.capacity (sent_of self.old.seat.me.0) item (sent_of self.new.seat.me.0) self.new.seat.me.0.learnt result }
        ensures learnt { self.new.seat.me.0.learnt ≡ self.old.seat.me.0.learnt }
        ensures plan { self.new.plan ≡ self.old.plan }
        ensures table { self.new.seat.table_id ≡ self.old.seat.table_id }
    {
        self.publish();
        Push::Full {
            sent: self.sent,
            taken: self.taken,
        }
    }

    // sends an item, for which there is a place, and publishes where a batch is whole or the item is the last one
    fn send(&mut self, item: &Item)
        requires room { length (sent_of self.old.seat.me.0) < self.old.seat.me.0.learnt + self.old.plan.capacity }
        requires lawful { MayFollow (plan_of self.old.plan) (sent_of self.old.seat.me.0) item.now }
        ensures sent { sent_of self.new.seat.me.0 ≡ sent_of self.old.seat.me.0 ++ item.now ∷ [] }
        ensures published { IsPrefix self.old.seat.me.0.items self.new.seat.me.0.items }
        ensures closed { item.now ≡ Close → self.new.seat.me.0.ahead ≡ [] }
        ensures learnt { self.new.seat.me.0.learnt ≡ self.old.seat.me.0.learnt }
        ensures plan { self.new.plan ≡ self.old.plan }
        ensures table { self.new.seat.table_id ≡ self.old.seat.table_id }
    {
        let capacity = self.plan.capacity;
        let place = SLOTS_WORD + self.sent as usize % usize::from(capacity) * SLOT_WIDTH;
        let table = &*self.table;
        let words = &table.shared;
        store_item(words, &mut self.seat, place, item);
        self.sent += 1;
        self.unpublished += 1;
        if !is_due(self.unpublished, capacity, item) {
            return;
        }
        let count = u64::from(self.sent);
        store_tail(words, &mut self.seat, count);
        self.unpublished = 0;
    }
}

impl TxEnd for RingTx {
    ghost use Rattle.std.proofs.Common.{refl};
    ghost use Rattle.sb_link.specs.PlanOf.{plan_of};
    ghost use Rattle.sb_ring.specs.Rule.{sent_of};
    ghost use Rattle.sb_ring.specs.RingMarks.{ring_mark};

    ghost planned = { λ end. plan_of end.plan };

    ghost sent = { λ end. sent_of end.seat.me.0 };

    ghost published = { λ end. end.seat.me.0.items };

    ghost taken = { λ end. end.seat.me.0.learnt };

    ghost mark = { λ end. ring_mark end.plan end.seat.table_id };

    fn plan(&self) -> &LinkPlan {
        &self.plan
    }

    #[inline(always)]
    fn try_push(&mut self, item: &Item) -> Push {
        if !self.has_room() {
            return self.refuse();
        }
        self.send(item);
        Push::Done
    }

    fn flush(&mut self) {
        self.publish()
    }

    ghost in_turn = { λ end. end.in_turn };

    ghost published_first = { λ end. record { rest = end.seat.me.0.ahead; joined = refl } };
}
