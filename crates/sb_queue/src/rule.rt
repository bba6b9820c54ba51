//! The rule of a queue that is a ring, and what each call on it tells.

use crate::log::Log;
use crossbeam_queue::protocol::{Join, Lesson, Outcome, Protocol, Split};
use crossbeam_queue::{Pass, RuledArrayQueue};
use sb_packet::Item;
use std::marker::{Brand, PhantomData};

/// What holds of a queue between any two pushes and pops: items come out in the order in which they went in.
pub struct InOrder;

impl Protocol<Item, Log> for InOrder {
    ghost use Rattle.std.specs.Prelude.{true, [], None};
    ghost use Rattle.sb_queue.specs.Relay.{log_of, IsRelayed};

    ghost holds = { IsRelayed };

    ghost first = { log_of true true None [] [] };
}

// the queue of a ring
pub(crate) type RingQueue = RuledArrayQueue<Item, Log, InOrder>;

// a pass of it
pub(crate) type RingPass = Pass<Item, Log>;

// the plan of a ring, which the call that makes it picks
pub(crate) trait Planned {
    ghost use Rattle.std.specs.Prelude.{Option};
    ghost use Rattle.sb_link.specs.declared.plan.LinkPlan.{LinkPlan};

    ghost plan: { Option LinkPlan };
}

impl Planned for Brand {
    ghost use Rattle.std.specs.Prelude.{None};

    ghost plan = { None };
}

// the first pass keeps the pushes, and a new one gets the pops
pub(crate) struct Ends<K> {
    of: PhantomData<K>,
}

impl<K: Planned> Split<Log> for Ends<K> {
    ghost use Rattle.std.specs.Prelude.{true, false, []};
    ghost use Rattle.sb_queue.specs.Relay.{log_of};

    ghost left = { λ log. log_of true false K.plan log.sent [] };

    ghost right = { λ log. log_of false true K.plan [] log.received };
}

// a push: the item comes to the end of what was sent; where the queue is full, it holds no more than was sent
pub(crate) struct QueuePush;

impl Outcome<Item, Log> for QueuePush {
    ghost use Rattle.std.specs.Prelude.{◌≡◌, [], ◌∷◌, ◌++◌};
    ghost use Rattle.sb_queue.specs.Relay.{log_of};

    ghost then = { λ before item after. after ≡ log_of before.pushes before.pops before.plan (before.sent ++ item ∷ []) before.received };
}

impl Lesson<Item, Log> for QueuePush {
    ghost use Rattle.std.specs.Prelude.{◌≤◌, length};

    ghost fact = { λ log items. length items ≤ length log.sent };
}

// a pop: the item may follow what was received, and comes to its end
pub(crate) struct QueuePop;

impl Outcome<Item, Log> for QueuePop {
    ghost use Rattle.std.specs.Prelude.{◌≡◌, [], ◌∷◌, ◌++◌};
    ghost use Rattle.sb_queue.specs.Relay.{log_of, FollowsBy};

    ghost then = { λ before item after. FollowsBy before.plan before.received item × (after ≡ log_of before.pushes before.pops before.plan before.sent (before.received ++ item ∷ [])) };
}

impl Lesson<Item, Log> for QueuePop {
    ghost fact = { λ log items. Unit {0} };
}

// a pass takes in the one that pushed, and learns what the queue holds
pub(crate) struct Whole;

impl Join<Log> for Whole {
    ghost use Rattle.std.specs.Prelude.{true, false, [], None};
    ghost use Rattle.sb_queue.specs.Relay.{log_of};

    ghost both = { λ reader writer. log_of true true reader.plan writer.sent reader.received };

    ghost spent = { log_of false false None [] [] };
}

impl Lesson<Item, Log> for Whole {
    ghost use Rattle.std.specs.Prelude.{◌≡◌, ◌++◌};

    ghost fact = { λ log items. log.sent ≡ log.received ++ items };
}
