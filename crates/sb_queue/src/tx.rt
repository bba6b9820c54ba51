//! The sending end of a ring over a queue.

ghost use Rattle.std.specs.Prelude.{◌≡◌, ◌≤◌, ◌+◌, true, length, Some};
ghost use Rattle.std.specs.Arc.{arc_value};
ghost use Rattle.crossbeam_queue.specs.Passes.{view, IsPassOf, ruled_capacity};
ghost use Rattle.sb_link.specs.Traffic.{AreInTurn};
ghost use Rattle.sb_link.specs.PlanOf.{plan_of};

use crate::rule::{QueuePush, RingPass, RingQueue};
use sb_link::{LinkPlan, Push, TxEnd};
use sb_packet::Item;
use std::sync::{Arc, Wait};

/// The sending end of a ring over a queue. A push may wait for the other end.
#[derive(Drop)]
pub struct QueueTx<R: Wait + Copy> {
    pub(crate) rt: R,
    pub(crate) plan: LinkPlan,
    pub(crate) queue: Arc<RingQueue>,
    // the pass with which it pushes: what was sent stands in its log alone
    pub(crate) pass: RingPass,
    // the number of items that were sent
    pub(crate) sent: u32,
    ghost of_queue: { IsPassOf (arc_value queue) pass },
    ghost capacity: { ruled_capacity (arc_value queue) ≡ plan.capacity },
    ghost pushes: { (view pass).pushes ≡ true },
    ghost planned: { (view pass).plan ≡ Some plan },
    ghost counted: { sent ≡ length (view pass).sent },
    ghost in_turn: { AreInTurn (plan_of plan) (view pass).sent },
    ghost few: { sent ≤ plan.budget + 1 },
}

impl<R: Wait + Copy> TxEnd for QueueTx<R> {
    ghost use Rattle.std.specs.Prelude.{◌-◌};
    ghost use Rattle.crossbeam_queue.specs.Passes.{view};
    ghost use Rattle.sb_link.specs.PlanOf.{plan_of};
    ghost use Rattle.sb_link.specs.Prefixes.{begins_itself};
    ghost use Rattle.sb_queue.specs.QueueMarks.{queue_mark};

    ghost planned = { λ end. plan_of end.plan };

    ghost sent = { λ end. (view end.pass).sent };

    ghost published = { λ end. (view end.pass).sent };

    // what fits no more was taken: there is no other place for it
    ghost taken = { λ end. end.sent - end.plan.capacity };

    ghost mark = { λ end. queue_mark end.plan end.pass.table_id };

    fn plan(&self) -> &LinkPlan {
        &self.plan
    }

    fn try_push(&mut self, item: &Item) -> Push {
        let capacity = u32::from(self.plan.capacity);
        let queue = &*self.queue;
        match queue.push_as::<QueuePush, R>(&self.rt, &mut self.pass, *item) {
            Ok(()) => {
                self.sent += 1;
                Push::Done
            }
            Err(_) => Push::Full {
                sent: self.sent,
                taken: self.sent - capacity,
            },
        }
    }

    // every push publishes its item, so that there is nothing left to publish
    fn flush(&mut self) {}

    ghost in_turn = { λ end. end.in_turn };

    ghost published_first = { λ end. begins_itself (view end.pass).sent };
}
