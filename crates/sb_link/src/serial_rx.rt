//! The receiving end of a ring on one thread.

ghost use Rattle.std.specs.Prelude.{◌≡◌, ◌≤◌, ◌+◌, ◌++◌, length};
ghost use Rattle.std.specs.VecDeque.{deque_capacity};
ghost use Rattle.sb_link.specs.Traffic.{AreInTurn};
ghost use Rattle.sb_link.specs.PlanOf.{plan_of};

use crate::answers::Pop;
use crate::ends::RxEnd;
use crate::ghost_history::GhostHistory;
use crate::plan::LinkPlan;
use sb_packet::Item;
use std::collections::VecDeque;

/// The receiving end of a ring on one thread, with the items that were handed over to it and wait.
#[derive(Drop)]
pub struct SerialRx {
    pub(crate) plan: LinkPlan,
    // the items that were received
    pub(crate) received: GhostHistory,
    // the items that wait, in order
    pub(crate) waiting: VecDeque<Item>,
    // the number of items that were received
    pub(crate) taken: u32,
    // that number when the ends last met
    pub(crate) told: u32,
    ghost counted: { taken ≡ length received },
    ghost known: { told ≤ taken },
    ghost room: { plan.capacity ≤ deque_capacity waiting },
    ghost in_turn: { AreInTurn (plan_of plan) (received ++ waiting.items) },
    ghost few: { length (received ++ waiting.items) ≤ plan.budget + 1 },
}

impl RxEnd for SerialRx {
    ghost use Rattle.std.specs.Prelude.{◌++◌, length, None};
    ghost use Rattle.sb_link.specs.PlanOf.{plan_of};
    ghost use Rattle.sb_link.specs.Traffic.{front_in_turn};

    ghost planned = { λ end. plan_of end.plan };

    ghost received = { λ end. end.received };

    ghost known = { λ end. length (end.received ++ end.waiting.items) };

    ghost mark = { λ end. record { plan = plan_of end.plan; table = None; handed = end.received ++ end.waiting.items; told = end.told } };

    fn plan(&self) -> &LinkPlan {
        &self.plan
    }

    fn try_pop(&mut self) -> Pop {
        match self.waiting.pop_front() {
            Some(item) => {
                self.received.add(&item);
                self.taken += 1;
                Pop::Item(item)
            }
            None => Pop::Empty {
                received: self.taken,
                sent: self.taken,
            },
        }
    }

    ghost in_turn = { λ end. front_in_turn end.received end.waiting.items end.in_turn };
}
