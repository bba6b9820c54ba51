//! How both ends of a ring over a queue are made.

ghost use Rattle.std.specs.Prelude.{◌≡◌, true, [], IfOk, Some};
ghost use Rattle.crossbeam_queue.specs.Passes.{view, IsPassOf};

use crate::rule::{Ends, Planned, RingPass, RingQueue};
use crate::rx::QueueRx;
use crate::tx::QueueTx;
use sb_link::LinkPlan;
use std::alloc::{AllocError, Global};
use std::marker::Brand;
use std::sync::{Arc, Wait};

// the pass that pops, of a queue over which nothing went; both passes have the plan that the caller picks
fn split_ends<K: Planned>(queue: &RingQueue, pass: &mut RingPass, plan: &LinkPlan) -> RingPass
    requires picked { K.plan ≡ Some plan.now }
    requires of_queue { IsPassOf queue.now pass.old }
    requires pushes { (view pass.old).pushes ≡ true }
    requires pops { (view pass.old).pops ≡ true }
    requires unused { (view pass.old).sent ≡ [] }
    ensures writer { IsPassOf queue.now pass.new }
    ensures reader { IsPassOf queue.now result }
    ensures writer_pushes { (view pass.new).pushes ≡ true }
    ensures writer_plan { (view pass.new).plan ≡ Some plan.now }
    ensures sent { (view pass.new).sent ≡ [] }
    ensures reader_pops { (view result).pops ≡ true }
    ensures reader_plan { (view result).plan ≡ Some plan.now }
    ensures received { (view result).received ≡ (view pass.old).received }
{
    queue.another::<Ends<K>>(pass)
}

/// Both ends of a new queue.
///
/// # Errors
///
/// `AllocError` where there isn't enough memory.
pub(crate) fn new_ends<R: Wait + Copy>(
    rt: R,
    alloc: Global,
    plan: &LinkPlan,
) -> Result<(QueueTx<R>, QueueRx<R>), AllocError>
    ensures tx_plan { IfOk result (λ ends. ends.0.plan ≡ plan.now) }
    ensures rx_plan { IfOk result (λ ends. ends.1.plan ≡ plan.now) }
    ensures sent { IfOk result (λ ends. (view ends.0.pass).sent ≡ []) }
    ensures received { IfOk result (λ ends. (view ends.1.pass).received ≡ []) }
    ensures one_queue { IfOk result (λ ends. ends.0.pass.table_id ≡ ends.1.pass.table_id) }
{
    let (queue, mut writer) = RingQueue::ruled(alloc, usize::from(plan.capacity))?;
    let reader = split_ends::<Brand>(&queue, &mut writer, plan);
    let queue = Arc::new(alloc, queue)?;
    let other = Arc::try_clone(&queue)?;
    let tx = QueueTx {
        rt,
        plan: *plan,
        queue,
        pass: writer,
        sent: 0,
    };
    let rx = QueueRx {
        rt,
        plan: *plan,
        queue: other,
        pass: reader,
        received: 0,
    };
    Ok((tx, rx))
}
