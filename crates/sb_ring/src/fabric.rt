//! What makes rings whose ends may be on two threads.

ghost use Rattle.std.specs.Prelude.{◌≡◌, ◌+◌, ◌*◌, ◌≤◌, ◌<◌, ℕ, [], false, replicate, length, IfOk, Some};
ghost use Rattle.sb_link.specs.Prefixes.{IsPrefix};
ghost use Rattle.sb_link.specs.Ends.{HaveMet};
ghost use Rattle.sb_ring.specs.Layout.{slot_width, slots_word};
ghost use Rattle.sb_ring.specs.Rule.{sent_of};

use crate::layout::{SLOT_WIDTH, SLOTS_WORD};
use crate::meet::meet_ends;
use crate::notes::make_consumer;
use crate::rule::RingTable;
use crate::rx::RingRx;
use crate::tx::RingTx;
use sb_link::{Fabric, LinkPlan, MeetFabric, RingRegistry};
use std::alloc::{AllocError, Global};
use std::sync::Arc;

/// Makes rings whose ends may be on two threads. What either end knows of the other is what it loaded last, and what was
/// sent can be received once it is published: a batch, a Close, and what was left before a `Full` or a `flush`.
#[derive(Drop)]
pub struct RingFabric {
    registry: RingRegistry<RingRx>,
}

impl RingFabric {
    /// A fabric that has made no ring. Takes no memory.
    pub fn new(alloc: Global) -> RingFabric
        ensures made { ⟦<RingFabric as Fabric>⟧.made result ≡ [] }
        ensures settled { (ring : ℕ) → ⟦<RingFabric as Fabric>⟧.settled result ring ≡ false }
        ensures prompt { ⟦<RingFabric as Fabric>⟧.prompt ≡ false }
    {
        RingFabric {
            registry: RingRegistry::new(alloc),
        }
    }
}

impl Fabric for RingFabric {
    ghost use Rattle.std.specs.Prelude.{false, is_some, []};
    ghost use Rattle.std.specs.Option.{option_map_or};
    ghost use Rattle.sb_link.specs.Registries.{end_of, plans_of};
    ghost use Rattle.sb_link.specs.Traffic.{item_accesses};
    ghost use Rattle.sb_ring.specs.declared.rx.RingRx.{RingRx};

    type Tx = RingTx;

    type Rx = RingRx;

    ghost made = { λ fabric. plans_of fabric.registry.rows.items };

    ghost carried = { λ fabric ring. option_map_or (λ (end : RingRx). item_accesses end.seat.me.0.items) (end_of fabric.registry.rows.items ring) [] };

    ghost settled = { λ fabric ring. is_some (end_of fabric.registry.rows.items ring) };

    ghost prompt = { false };

    fn make(&mut self, alloc: Global, plan: &LinkPlan) -> Result<(RingTx, RingRx), AllocError> {
        let ends = new_ring(alloc, plan)?;
        self.registry.add(plan)?;
        Ok(ends)
    }

    // what was sent is published; each end learns of the other by itself
    fn hand(tx: &mut RingTx, _rx: &mut RingRx) {
        tx.publish();
    }

    fn settle(&mut self, mut tx: RingTx, mut rx: RingRx) {
        meet_ends(&mut tx, &mut rx);
        self.registry.keep(tx.plan.ring, rx);
    }
}

impl MeetFabric for RingFabric {
    fn meet(tx: &mut RingTx, rx: &mut RingRx) {
        meet_ends(tx, rx);
    }
}

// both ends of a ring over which nothing went
fn new_ring(alloc: Global, plan: &LinkPlan) -> Result<(RingTx, RingRx), AllocError>
    ensures tx_plan { IfOk result (λ ends. ends.0.plan ≡ plan.now) }
    ensures rx_plan { IfOk result (λ ends. ends.1.plan ≡ plan.now) }
    ensures sent { IfOk result (λ ends. sent_of ends.0.seat.me.0 ≡ []) }
    ensures received { IfOk result (λ ends. ends.1.seat.me.0.items ≡ []) }
    ensures taken { IfOk result (λ ends. ends.0.seat.me.0.learnt ≡ 0) }
    ensures known { IfOk result (λ ends. ends.1.seat.me.0.learnt ≡ 0) }
    ensures one_table { IfOk result (λ ends. ends.0.seat.table_id ≡ ends.1.seat.table_id) }
{
    let count = SLOTS_WORD + usize::from(plan.capacity) * SLOT_WIDTH;
    let zeros = zero_words(alloc, count)?;
    let (table, mut producer) = RingTable::of_words(alloc, zeros.as_slice(), plan)?;
    let consumer = make_consumer(&table.shared, &mut producer);
    let table = Arc::new(alloc, table)?;
    let other = Arc::try_clone(&table)?;
    let tx = RingTx {
        plan: *plan,
        table,
        seat: producer,
        sent: 0,
        unpublished: 0,
        taken: 0,
    };
    let rx = RingRx {
        plan: *plan,
        table: other,
        seat: consumer,
        received: 0,
        known: 0,
    };
    Ok((tx, rx))
}

fn zero_words(alloc: Global, count: usize) -> Result<Vec<u64>, AllocError>
    ensures zeros { IfOk result (λ words. words.items ≡ replicate count 0) }
{
    Vec::from_elem(alloc, 0, count)
}
