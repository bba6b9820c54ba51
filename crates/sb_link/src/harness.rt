//! A ring under test, over any fabric.

ghost use Rattle.std.specs.Prelude.{◌≡◌, ◌≤◌, true, false, not, [], ◌∷◌, ◌++◌, length, IfOk};
ghost use Rattle.sb_packet.specs.Journals.{is_request};
ghost use Rattle.sb_packet.specs.Messages.{message_of};
ghost use Rattle.sb_link.specs.Traffic.{has_close, IsCarriable, item_accesses};
ghost use Rattle.sb_link.specs.Moves.{held_items};
ghost use Rattle.sb_link.specs.PlanOf.{plan_of};

use crate::answers::{Pop, Push};
use crate::ends::{RxEnd, TxEnd};
use crate::fabric::Fabric;
use crate::moves::move_item;
use crate::plan::LinkPlan;
use sb_packet::{Item, Op, Packet, span, word_count};
use std::alloc::{AllocError, Global};

/// A ring with both ends and the fabric that made it. It sends only what may follow.
#[derive(Drop)]
pub(crate) struct Harness<F: Fabric + Drop> {
    fabric: F,
    tx: F::Tx,
    rx: F::Rx,
    words: u32,
    closed: bool,
    ghost open: { closed ≡ false → has_close (F.Tx.sent tx) ≡ false },
    ghost counted: { length (item_accesses (F.Tx.sent tx)) ≤ words },
    ghost marks: { F.Tx.mark tx ≡ F.Rx.mark rx },
    ghost made: { F.made fabric ≡ F.Tx.planned tx ∷ [] },
    ghost unsettled: { F.settled fabric (F.Tx.planned tx).ring ≡ false },
}

impl<F: Fabric + Drop> Harness<F> {
    pub(crate) fn new(fabric: F, alloc: Global, plan: &LinkPlan) -> Result<Harness<F>, AllocError>
        requires empty { F.made fabric ≡ [] }
        ensures plan { IfOk result (λ harness. F.Rx.planned harness.rx ≡ plan_of plan.now) }
        ensures received { IfOk result (λ harness. F.Rx.received harness.rx ≡ []) }
    {
        let mut fabric = fabric;
        let (tx, rx) = fabric.make(alloc, plan)?;
        Ok(Harness {
            fabric,
            tx,
            rx,
            words: 0,
            closed: false,
        })
    }

    // sends a packet, where it may be sent
    pub(crate) fn push(&mut self, packet: &Packet) -> Option<Push>
        ensures plan { F.Rx.planned self.new.rx ≡ F.Rx.planned self.old.rx }
        ensures received { F.Rx.received self.new.rx ≡ F.Rx.received self.old.rx }
    {
        let plan = *self.tx.plan();
        let words = word_count(&packet.cmd);
        let sum = u64::from(self.words) + u64::from(words);
        if self.closed || sum > u64::from(plan.budget) || !carries(&plan, packet) {
            return None;
        }
        self.words += words;
        Some(self.tx.try_push(&Item::Packet(*packet)))
    }

    // ends the ring's traffic
    pub(crate) fn close(&mut self) -> Option<Push> {
        if self.closed || self.words > self.tx.plan().budget {
            return None;
        }
        self.closed = true;
        Some(self.tx.try_push(&Item::Close))
    }

    pub(crate) fn pop(&mut self) -> Pop {
        self.rx.try_pop()
    }

    // lets the ends meet
    pub(crate) fn hand(&mut self)
        ensures plan { F.Rx.planned self.new.rx ≡ F.Rx.planned self.old.rx }
        ensures received { F.Rx.received self.new.rx ≡ F.Rx.received self.old.rx }
    {
        F::hand(&mut self.tx, &mut self.rx);
    }

    // moves an item to another ring
    pub(crate) fn forward<T: TxEnd>(&mut self, held: &mut Option<Item>, tx: &mut T) -> bool
        requires plans { F.Rx.planned self.old.rx ≡ T.planned tx.old }
        requires in_order { F.Rx.received self.old.rx ≡ T.sent tx.old ++ held_items held.old }
        ensures rx_plan { F.Rx.planned self.new.rx ≡ F.Rx.planned self.old.rx }
        ensures tx_plan { T.planned tx.new ≡ T.planned tx.old }
        ensures in_order { F.Rx.received self.new.rx ≡ T.sent tx.new ++ held_items held.new }
        ensures mark { T.mark tx.new ≡ T.mark tx.old }
    {
        move_item(&mut self.rx, held, tx)
    }

    // hands the ends back
    pub(crate) fn settle(self) -> F {
        let Harness {
            mut fabric,
            tx,
            rx,
            ..
        } = self;
        fabric.settle(tx, rx);
        fabric
    }
}

/// A ring whose items go on over another one. The plans are the same.
#[derive(Drop)]
pub(crate) struct Relay<F: Fabric + Drop> {
    from: Harness<F>,
    held: Option<Item>,
    tx: F::Tx,
    rx: F::Rx,
    ghost plans: { F.Rx.planned from.rx ≡ F.Tx.planned tx },
    ghost in_order: { F.Rx.received from.rx ≡ F.Tx.sent tx ++ held_items held },
    ghost marks: { F.Tx.mark tx ≡ F.Rx.mark rx },
}

impl<F: Fabric + Drop> Relay<F> {
    pub(crate) fn new(
        fabric: F,
        next: &mut F,
        alloc: Global,
        plan: &LinkPlan,
    ) -> Result<Relay<F>, AllocError>
        requires empty { F.made fabric ≡ [] }
        requires next_empty { F.made next.old ≡ [] }
    {
        let from = Harness::new(fabric, alloc, plan)?;
        let (tx, rx) = next.make(alloc, plan)?;
        Ok(Relay {
            from,
            held: None,
            tx,
            rx,
        })
    }

    // sends a packet over the first ring
    pub(crate) fn push(&mut self, packet: &Packet) -> Option<Push> {
        self.from.push(packet)
    }

    // moves an item to the second ring, and says whether one was sent there, and which is held
    pub(crate) fn forward(&mut self) -> (bool, Option<Item>) {
        let moved = self.from.forward(&mut self.held, &mut self.tx);
        (moved, self.held)
    }

    // takes an item from the second ring
    pub(crate) fn pop(&mut self) -> Pop {
        self.rx.try_pop()
    }

    // lets the ends of both rings meet
    pub(crate) fn hand(&mut self) {
        self.from.hand();
        F::hand(&mut self.tx, &mut self.rx);
    }
}

// the plan is made for such a packet
fn carries(plan: &LinkPlan, p: &Packet) -> bool
    ensures carriable { result ≡ true → IsCarriable (plan_of plan.now) (message_of p.now) }
{
    if is_answer(p.cmd.op) != plan.up {
        return false;
    }
    if !plan.flows.allows(p) {
        return false;
    }
    if span(&p.cmd) > u32::from(plan.width) {
        return false;
    }
    !p.cmd.ex
}

fn is_answer(op: Op) -> bool
    ensures answer { result ≡ not (is_request op) }
{
    match op {
        Op::RespRd | Op::RespWr => true,
        Op::ReqRd | Op::ReqWr | Op::ReqWrPosted | Op::ReqAtomic => false,
    }
}
