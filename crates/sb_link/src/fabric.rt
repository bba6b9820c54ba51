//! What makes rings.

ghost use Rattle.std.specs.Prelude.{◌≡◌, ◌≢◌, ℕ, ◌≤◌, Bool, true, false, List, [], ◌∷◌, ◌++◌, IfOk, IfErr, Contains, length};
ghost use Rattle.sb_packet.specs.Accesses.{Access};
ghost use Rattle.sb_link.specs.RingPlans.{RingPlan};
ghost use Rattle.sb_link.specs.Prefixes.{IsPrefix};
ghost use Rattle.sb_link.specs.Traffic.{item_accesses};
ghost use Rattle.sb_link.specs.Ends.{HaveMet, IsNewRing};
ghost use Rattle.sb_link.specs.PlanOf.{plan_of};

use crate::ends::{RxEnd, TxEnd};
use crate::plan::LinkPlan;
use std::alloc::{AllocError, Global};

/// What makes rings, and keeps what they carried once their ends are handed back.
pub trait Fabric: Send {
    type Tx: TxEnd + Send;

    type Rx: RxEnd + Send;

    // the plans of the rings that were made, in order
    ghost made: { Self → List RingPlan };
    // the words that each ring carried, once its ends were handed back
    ghost carried: { Self → ℕ → List Access };
    // the ends of a ring were handed back
    ghost settled: { Self → ℕ → Bool };
    // `hand` lets the ends meet
    ghost prompt: { Bool };

    /// Makes a ring: both ends have its plan, nothing was sent, nothing received and nothing learnt.
    ///
    /// # Errors
    ///
    /// `AllocError` where there isn't enough memory; then the fabric is as before.
    fn make(&mut self, alloc: Global, plan: &LinkPlan) -> Result<(Self::Tx, Self::Rx), AllocError>
        requires new { IsNewRing plan.now.ring (made self.old) }
        ensures made { IfOk result (λ ends. made self.new ≡ made self.old ++ plan_of plan.now ∷ []) }
        ensures tx_plan { IfOk result (λ ends. Self.Tx.planned ends.0 ≡ plan_of plan.now) }
        ensures rx_plan { IfOk result (λ ends. Self.Rx.planned ends.1 ≡ plan_of plan.now) }
        ensures sent { IfOk result (λ ends. Self.Tx.sent ends.0 ≡ []) }
        ensures received { IfOk result (λ ends. Self.Rx.received ends.1 ≡ []) }
        ensures taken { IfOk result (λ ends. Self.Tx.taken ends.0 ≡ 0) }
        ensures known { IfOk result (λ ends. Self.Rx.known ends.1 ≡ 0) }
        ensures marks { IfOk result (λ ends. Self.Tx.mark ends.0 ≡ Self.Rx.mark ends.1) }
        ensures refused { IfErr result (λ _. made self.new ≡ made self.old) }
        ensures carried { (ring : ℕ) → carried self.new ring ≡ carried self.old ring }
        ensures settled { (ring : ℕ) → settled self.new ring ≡ settled self.old ring }
        ensures unsettled { IfOk result (λ ends. settled self.new plan.now.ring ≡ false) };

    /// Hands over what the fabric keeps back inside the producer's end. Where the fabric is prompt, the two ends meet:
    /// each knows all that the other one did, and no more. Takes no memory.
    fn hand(tx: &mut Self::Tx, rx: &mut Self::Rx)
        requires marks { Self.Tx.mark tx.old ≡ Self.Rx.mark rx.old }
        ensures tx_plan { Self.Tx.planned tx.new ≡ Self.Tx.planned tx.old }
        ensures rx_plan { Self.Rx.planned rx.new ≡ Self.Rx.planned rx.old }
        ensures sent { Self.Tx.sent tx.new ≡ Self.Tx.sent tx.old }
        ensures published { Self.Tx.published tx.new ≡ Self.Tx.sent tx.new }
        ensures received { Self.Rx.received rx.new ≡ Self.Rx.received rx.old }
        ensures taken { Self.Tx.taken tx.old ≤ Self.Tx.taken tx.new }
        ensures known { Self.Rx.known rx.old ≤ Self.Rx.known rx.new }
        ensures marks { Self.Tx.mark tx.new ≡ Self.Rx.mark rx.new }
        ensures taken_at_most { prompt ≡ true → Self.Tx.taken tx.new ≤ length (Self.Rx.received rx.new) }
        ensures known_at_most { prompt ≡ true → Self.Rx.known rx.new ≤ length (Self.Tx.sent tx.new) }
        ensures met { prompt ≡ true
            → HaveMet (Self.Tx.sent tx.new) (Self.Tx.taken tx.new) (Self.Rx.received rx.new) (Self.Rx.known rx.new) };

    /// Takes the ends of a ring back, and keeps what it carried in a place that `make` reserved. Takes no memory.
    ///
    /// The ring was made by this fabric, and its ends weren't handed back before.
    fn settle(&mut self, tx: Self::Tx, rx: Self::Rx)
        requires marks { Self.Tx.mark tx ≡ Self.Rx.mark rx }
        requires made { Contains (made self.old) (Self.Tx.planned tx) }
        requires unsettled { settled self.old (Self.Tx.planned tx).ring ≡ false }
        ensures carried { carried self.new (Self.Tx.planned tx).ring ≡ item_accesses (Self.Rx.received rx) }
        ensures prefix { IsPrefix (Self.Rx.received rx) (Self.Tx.sent tx) }
        ensures made { made self.new ≡ made self.old }
        ensures settled { settled self.new (Self.Tx.planned tx).ring ≡ true }
        ensures others_settled { (ring : ℕ) → ring ≢ (Self.Tx.planned tx).ring → settled self.new ring ≡ settled self.old ring }
        ensures others { (ring : ℕ) → ring ≢ (Self.Tx.planned tx).ring → carried self.new ring ≡ carried self.old ring };
}

/// A fabric whose rings' ends can meet in place, whether it is prompt or not.
pub trait MeetFabric: Fabric {
    /// The two ends of a ring meet: each knows at least all that the other one did. Takes no memory.
    fn meet(tx: &mut Self::Tx, rx: &mut Self::Rx)
        requires marks { Self.Tx.mark tx.old ≡ Self.Rx.mark rx.old }
        ensures tx_plan { Self.Tx.planned tx.new ≡ Self.Tx.planned tx.old }
        ensures rx_plan { Self.Rx.planned rx.new ≡ Self.Rx.planned rx.old }
        ensures sent { Self.Tx.sent tx.new ≡ Self.Tx.sent tx.old }
        ensures published { Self.Tx.published tx.new ≡ Self.Tx.sent tx.new }
        ensures received { Self.Rx.received rx.new ≡ Self.Rx.received rx.old }
        ensures taken { Self.Tx.taken tx.old ≤ Self.Tx.taken tx.new }
        ensures known { Self.Rx.known rx.old ≤ Self.Rx.known rx.new }
        ensures marks { Self.Tx.mark tx.new ≡ Self.Rx.mark rx.new }
        ensures met { HaveMet (Self.Tx.sent tx.new) (Self.Tx.taken tx.new) (Self.Rx.received rx.new) (Self.Rx.known rx.new) };
}
