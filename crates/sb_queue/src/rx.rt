//! The receiving end of a ring over a queue.

ghost use Rattle.std.specs.Prelude.{◌≡◌, ◌≤◌, ◌+◌, true, length, Some};
ghost use Rattle.std.specs.Arc.{arc_value};
ghost use Rattle.crossbeam_queue.specs.Passes.{view, IsPassOf};
ghost use Rattle.sb_link.specs.Traffic.{AreInTurn};
ghost use Rattle.sb_link.specs.PlanOf.{plan_of};

use crate::rule::{QueuePop, RingPass, RingQueue};
use sb_link::{LinkPlan, Pop, RxEnd};
use std::sync::{Arc, Wait};

/// The receiving end of a ring over a queue. A pop may wait for the other end.
#[derive(Drop)]
pub struct QueueRx<R: Wait + Copy> {
    pub(crate) rt: R,
    pub(crate) plan: LinkPlan,
    pub(crate) queue: Arc<RingQueue>,
    // the pass with which it pops: what was received stands in its log alone
    pub(crate) pass: RingPass,
    // the number of items that were received
    pub(crate) received: u32,
    ghost of_queue: { IsPassOf (arc_value queue) pass },
    ghost pops: { (view pass).pops ≡ true },
    ghost planned: { (view pass).plan ≡ Some plan },
    ghost counted: { received ≡ length (view pass).received },
    ghost in_turn: { AreInTurn (plan_of plan) (view pass).received },
    ghost few: { received ≤ plan.budget + 1 },
}

impl<R: Wait + Copy> RxEnd for QueueRx<R> {
    ghost use Rattle.crossbeam_queue.specs.Passes.{view};
    ghost use Rattle.sb_link.specs.PlanOf.{plan_of};
    ghost use Rattle.sb_queue.specs.QueueMarks.{queue_mark};

    ghost planned = { λ end. plan_of end.plan };

    ghost received = { λ end. (view end.pass).received };

    ghost known = { λ end. end.received };

    ghost mark = { λ end. queue_mark end.plan end.pass.table_id };

    fn plan(&self) -> &LinkPlan {
        &self.plan
    }

    fn try_pop(&mut self) -> Pop {
        let queue = &*self.queue;
        match queue.pop_as::<QueuePop, R>(&self.rt, &mut self.pass) {
            Some(item) => {
                self.received += 1;
                Pop::Item(item)
            }
            None => Pop::Empty {
                received: self.received,
                sent: self.received,
            },
        }
    }

    ghost in_turn = { λ end. end.in_turn };
}
