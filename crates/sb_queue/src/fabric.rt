//! What makes rings over queues.

ghost use Rattle.std.specs.Prelude.{◌≡◌, ℕ, [], false};
ghost use Rattle.crossbeam_queue.specs.Passes.{view};
ghost use Rattle.sb_link.specs.Prefixes.{IsPrefix};

use crate::make::new_ends;
use crate::rule::Whole;
use crate::rx::QueueRx;
use crate::tx::QueueTx;
use sb_link::{Fabric, LinkPlan, RingRegistry};
use std::alloc::{AllocError, Global};
use std::sync::Wait;

/// Makes rings over queues, whose ends may be on two threads. Their pushes and pops may wait for each other.
#[derive(Drop)]
pub struct QueueFabric<R: Wait + Copy> {
    rt: R,
    registry: RingRegistry<QueueRx<R>>,
}

impl<R: Wait + Copy + Send> QueueFabric<R> {
    /// A fabric that has made no ring, whose ends wait with this handle. Takes no memory.
    pub fn new(rt: R, alloc: Global) -> QueueFabric<R>
        ensures made { ⟦<QueueFabric<R> as Fabric>⟧.made result ≡ [] }
        ensures settled { (ring : ℕ) → ⟦<QueueFabric<R> as Fabric>⟧.settled result ring ≡ false }
        ensures prompt { ⟦<QueueFabric<R> as Fabric>⟧.prompt ≡ false }
    {
        QueueFabric {
            rt,
            registry: RingRegistry::new(alloc),
        }
    }
}

// the receiving end takes in what the sending one knows
fn take_back<R: Wait + Copy>(tx: QueueTx<R>, rx: &mut QueueRx<R>)
    requires one_queue { tx.pass.table_id ≡ rx.old.pass.table_id }
    ensures plan { rx.new.plan ≡ rx.old.plan }
    ensures received { (view rx.new.pass).received ≡ (view rx.old.pass).received }
    ensures prefix { IsPrefix (view rx.new.pass).received (view tx.pass).sent }
{
    let QueueTx { queue, pass, .. } = tx;
    let queue = &*queue;
    queue.absorb::<Whole>(&mut rx.pass, pass);
    queue.learn_as::<Whole>(&mut rx.pass);
}

impl<R: Wait + Copy + Send> Fabric for QueueFabric<R> {
    ghost use Rattle.std.specs.Prelude.{false, is_some, []};
    ghost use Rattle.std.specs.Option.{option_map_or};
    ghost use Rattle.crossbeam_queue.specs.Passes.{view};
    ghost use Rattle.sb_link.specs.Registries.{end_of, plans_of};
    ghost use Rattle.sb_link.specs.Traffic.{item_accesses};
    ghost use Rattle.sb_packet.specs.declared.item.Item.{Item};
    ghost use Rattle.sb_queue.specs.declared.log.Log.{Log};

    type Tx = QueueTx<R>;

    type Rx = QueueRx<R>;

    ghost made = { λ fabric. plans_of fabric.registry.rows.items };

    ghost carried = { λ fabric ring. option_map_or (λ end. item_accesses (view {T = Item} {V = Log} end.pass).received) (end_of fabric.registry.rows.items ring) [] };

    ghost settled = { λ fabric ring. is_some (end_of fabric.registry.rows.items ring) };

    ghost prompt = { false };

    fn make(
        &mut self,
        alloc: Global,
        plan: &LinkPlan,
    ) -> Result<(QueueTx<R>, QueueRx<R>), AllocError> {
        let ends = new_ends(self.rt, alloc, plan)?;
        self.registry.add(plan)?;
        Ok(ends)
    }

    // nothing is kept back, so that there is nothing to hand over
    fn hand(_tx: &mut QueueTx<R>, _rx: &mut QueueRx<R>) {}

    fn settle(&mut self, tx: QueueTx<R>, mut rx: QueueRx<R>) {
        let ring = tx.plan.ring;
        take_back(tx, &mut rx);
        self.registry.keep(ring, rx);
    }
}
