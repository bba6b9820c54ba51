//! The receiving end of a ring.

ghost use Rattle.std.specs.Prelude.{◌≡◌, ◌+◌, ◌*◌, ◌<◌, ◌≤◌, true, false, [], ◌∷◌, ◌++◌, length, Some};
ghost use Rattle.std.specs.Arc.{arc_value};
ghost use Rattle.sb_link.specs.Traffic.{AreInTurn, MayFollow};
ghost use Rattle.sb_link.specs.PlanOf.{plan_of};
ghost use Rattle.sb_ring.specs.Layout.{slot_width, slots_word};
ghost use Rattle.sb_ring.specs.declared.view.Role.TheVariants.{Consumer};

use crate::consumer::{load_slot, load_tail, store_head};
use crate::layout::{SLOT_WIDTH, SLOTS_WORD};
use crate::rule::{RingSeat, RingTable};
use sb_link::{LinkPlan, Pop, RxEnd};
use sb_packet::Item;
use std::sync::Arc;

/// The receiving end of a ring. It may be on another thread than the sending end.
#[derive(Drop)]
pub struct RingRx {
    pub(crate) plan: LinkPlan,
    pub(crate) table: Arc<RingTable>,
    // the seat with which it steps: what was received stands in its view alone
    pub(crate) seat: RingSeat,
    // the number of items that were received
    pub(crate) received: u32,
    // the count of items published that it loaded last
    pub(crate) known: u64,
    ghost of_table: { seat.table_id ≡ (arc_value table).shared.table_id },
    ghost size: { (arc_value table).shared.table_id.words ≡ slots_word + plan.capacity * slot_width },
    ghost ruled: { (arc_value table).shared.key ≡ plan },
    ghost role: { seat.me.0.role ≡ Consumer },
    ghost planned: { seat.me.0.plan ≡ Some plan },
    ghost between: { seat.me.0.part ≡ [] },
    ghost counted: { received ≡ length seat.me.0.items },
    ghost learnt: { known ≡ seat.me.0.learnt },
    ghost received_were_known: { received ≤ known },
    ghost in_turn: { AreInTurn (plan_of plan) seat.me.0.items },
    ghost few: { received ≤ plan.budget + 1 },
}

impl RingRx {
    // whether an item waits, by the count of published items that it keeps; where that says no, it is loaded again
    fn has_item(&mut self) -> bool
        ensures waits { result ≡ true → length self.old.seat.me.0.items < self.new.seat.me.0.learnt }
        ensures empty { result ≡ false → length self.old.seat.me.0.items ≡ self.new.seat.me.0.learnt }
        ensures loaded { result ≡ false → self.new.seat.me.0.loads ≡ self.old.seat.me.0.loads + 1 }
        ensures learnt { self.old.seat.me.0.learnt ≤ self.new.seat.me.0.learnt }
        ensures received { self.new.seat.me.0.items ≡ self.old.seat.me.0.items }
        ensures plan { self.new.plan ≡ self.old.plan }
        ensures table { self.new.seat.table_id ≡ self.old.seat.table_id }
    {
        let received = u64::from(self.received);
        if received < self.known {
            return true;
        }
        let table = &*self.table;
        let words = &table.shared;
        let known = load_tail(words, &mut self.seat);
        self.known = known;
        received < known
    }

    // receives the item that waits
    fn receive(&mut self) -> Item
        requires waits { length self.old.seat.me.0.items < self.old.seat.me.0.learnt }
        ensures lawful { MayFollow (plan_of self.old.plan) self.old.seat.me.0.items result }
        ensures received { self.new.seat.me.0.items ≡ self.old.seat.me.0.items ++ result ∷ [] }
        ensures learnt { self.new.seat.me.0.learnt ≡ self.old.seat.me.0.learnt }
        ensures plan { self.new.plan ≡ self.old.plan }
        ensures table { self.new.seat.table_id ≡ self.old.seat.table_id }
    {
        let place = SLOTS_WORD
            + self.received as usize % usize::from(self.plan.capacity) * SLOT_WIDTH;
        let count = u64::from(self.received) + 1;
        let table = &*self.table;
        let words = &table.shared;
        let slot = load_slot(words, &mut self.seat, place);
        let item = store_head(words, &mut self.seat, &slot, count);
        self.received += 1;
        item
    }
}

impl RxEnd for RingRx {
    ghost use Rattle.sb_link.specs.PlanOf.{plan_of};
    ghost use Rattle.sb_ring.specs.RingMarks.{ring_mark};

    ghost planned = { λ end. plan_of end.plan };

    ghost received = { λ end. end.seat.me.0.items };

    ghost known = { λ end. end.seat.me.0.learnt };

    ghost mark = { λ end. ring_mark end.plan end.seat.table_id };

    fn plan(&self) -> &LinkPlan {
        &self.plan
    }

    #[inline(always)]
    fn try_pop(&mut self) -> Pop {
        if !self.has_item() {
            return Pop::Empty {
                received: self.received,
                sent: self.received,
            };
        }
        Pop::Item(self.receive())
    }

    ghost in_turn = { λ end. end.in_turn };
}
