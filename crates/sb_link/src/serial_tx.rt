//! The sending end of a ring on one thread.

ghost use Rattle.std.specs.Prelude.{◌≡◌, ◌+◌, ◌≤◌, ◌++◌, length};
ghost use Rattle.std.specs.VecDeque.{deque_capacity};
ghost use Rattle.sb_link.specs.Traffic.{AreInTurn};
ghost use Rattle.sb_link.specs.PlanOf.{plan_of};

use crate::answers::Push;
use crate::ends::TxEnd;
use crate::ghost_history::GhostHistory;
use crate::plan::LinkPlan;
use sb_packet::Item;
use std::collections::VecDeque;

/// The sending end of a ring on one thread. It keeps the items that aren't handed over yet.
#[derive(Drop)]
pub struct SerialTx {
    pub(crate) plan: LinkPlan,
    // the items that were handed over
    pub(crate) handed: GhostHistory,
    // the items that were sent and not handed over, in order
    pub(crate) kept: VecDeque<Item>,
    // the number of items that were sent
    pub(crate) sent: u32,
    // the number of items that were taken when the ends last met
    pub(crate) taken: u32,
    ghost counted: { sent ≡ length (handed ++ kept.items) },
    ghost known: { taken ≤ length handed },
    ghost within: { sent ≤ taken + plan.capacity },
    ghost room: { plan.capacity ≤ deque_capacity kept },
    ghost in_turn: { AreInTurn (plan_of plan) (handed ++ kept.items) },
    ghost few: { sent ≤ plan.budget + 1 },
}

impl TxEnd for SerialTx {
    ghost use Rattle.std.specs.Prelude.{◌++◌, None};
    ghost use Rattle.sb_link.specs.PlanOf.{plan_of};
    ghost use Rattle.sb_link.specs.Prefixes.{begins_itself};

    ghost planned = { λ end. plan_of end.plan };

    ghost sent = { λ end. end.handed ++ end.kept.items };

    // nothing is kept back from the meeting
    ghost published = { λ end. end.handed ++ end.kept.items };

    ghost taken = { λ end. end.taken };

    ghost mark = { λ end. record { plan = plan_of end.plan; table = None; handed = end.handed; told = end.taken } };

    fn plan(&self) -> &LinkPlan {
        &self.plan
    }

    fn try_push(&mut self, item: &Item) -> Push {
        if self.sent - self.taken == u32::from(self.plan.capacity) {
            return Push::Full {
                sent: self.sent,
                taken: self.taken,
            };
        }
        self.kept.push_back_reserved(*item);
        self.sent += 1;
        Push::Done
    }

    // every item waits for the meeting, so that there is nothing to publish before
    fn flush(&mut self) {}

    ghost in_turn = { λ end. end.in_turn };

    ghost published_first = { λ end. begins_itself (end.handed ++ end.kept.items) };
}
