//! Rings on one thread.

ghost use Rattle.std.specs.Prelude.{◌≡◌, [], false, true, IfOk, ℕ};
ghost use Rattle.sb_link.specs.PlanOf.{plan_of};

use crate::ends::{RxEnd, TxEnd};
use crate::fabric::{Fabric, MeetFabric};
use crate::ghost_history::GhostHistory;
use crate::hand::hand_over;
use crate::plan::LinkPlan;
use crate::ring_registry::RingRegistry;
use crate::serial_rx::SerialRx;
use crate::serial_tx::SerialTx;
use std::alloc::{AllocError, Global};
use std::collections::VecDeque;

/// Makes rings on one thread. What is sent stays with the sending end until `hand` moves it, and the ends know of
/// each other what the last `hand` told.
#[derive(Drop)]
pub struct SerialFabric {
    registry: RingRegistry<SerialRx>,
}

impl SerialFabric {
    /// A fabric that has made no ring. Takes no memory.
    pub fn new(alloc: Global) -> SerialFabric
        ensures made { ⟦<SerialFabric as Fabric>⟧.made result ≡ [] }
        ensures settled { (ring : ℕ) → ⟦<SerialFabric as Fabric>⟧.settled result ring ≡ false }
        ensures prompt { ⟦<SerialFabric as Fabric>⟧.prompt ≡ true }
    {
        SerialFabric {
            registry: RingRegistry::new(alloc),
        }
    }
}

// a sending end at which nothing was sent
fn new_tx(alloc: Global, plan: &LinkPlan) -> Result<SerialTx, AllocError>
    ensures plan { IfOk result (λ end. end.plan ≡ plan.now) }
    ensures handed { IfOk result (λ end. end.handed ≡ []) }
    ensures kept { IfOk result (λ end. end.kept.items ≡ []) }
    ensures taken { IfOk result (λ end. end.taken ≡ 0) }
{
    let handed = GhostHistory::new(alloc)?;
    let kept = VecDeque::with_capacity(alloc, usize::from(plan.capacity))?;
    Ok(SerialTx {
        plan: *plan,
        handed,
        kept,
        sent: 0,
        taken: 0,
    })
}

// a receiving end at which nothing was received
fn new_rx(alloc: Global, plan: &LinkPlan) -> Result<SerialRx, AllocError>
    ensures plan { IfOk result (λ end. end.plan ≡ plan.now) }
    ensures received { IfOk result (λ end. end.received ≡ []) }
    ensures waiting { IfOk result (λ end. end.waiting.items ≡ []) }
    ensures told { IfOk result (λ end. end.told ≡ 0) }
{
    let received = GhostHistory::new(alloc)?;
    let waiting = VecDeque::with_capacity(alloc, usize::from(plan.capacity))?;
    Ok(SerialRx {
        plan: *plan,
        received,
        waiting,
        taken: 0,
        told: 0,
    })
}

impl Fabric for SerialFabric {
    ghost use Rattle.std.specs.Prelude.{true, is_some, []};
    ghost use Rattle.std.specs.Option.{option_map_or};
    ghost use Rattle.sb_link.specs.Registries.{end_of, plans_of};
    ghost use Rattle.sb_link.specs.declared.serial_rx.SerialRx.{SerialRx};
    ghost use Rattle.sb_link.specs.Traffic.{item_accesses};

    type Tx = SerialTx;

    type Rx = SerialRx;

    ghost made = { λ fabric. plans_of fabric.registry.rows.items };

    ghost carried = { λ fabric ring. option_map_or (λ (end : SerialRx). item_accesses end.received)
        (end_of fabric.registry.rows.items ring) [] };

    ghost settled = { λ fabric ring. is_some (end_of fabric.registry.rows.items ring) };

    ghost prompt = { true };

    fn make(&mut self, alloc: Global, plan: &LinkPlan) -> Result<(SerialTx, SerialRx), AllocError> {
        let tx = new_tx(alloc, plan)?;
        let rx = new_rx(alloc, plan)?;
        self.registry.add(plan)?;
        Ok((tx, rx))
    }

    fn hand(tx: &mut SerialTx, rx: &mut SerialRx) {
        hand_over(tx, rx);
    }

    fn settle(&mut self, tx: SerialTx, rx: SerialRx) {
        self.registry.keep(tx.plan.ring, rx);
    }
}

impl MeetFabric for SerialFabric {
    fn meet(tx: &mut SerialTx, rx: &mut SerialRx) {
        hand_over(tx, rx);
    }
}
