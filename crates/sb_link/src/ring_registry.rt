//! Where a fabric keeps what its rings carried.

ghost use Rattle.std.specs.Prelude.{◌≡◌, ◌≢◌, ℕ, [], ◌∷◌, ◌++◌, Some, None, IfOk, IfErr, slice_get};
ghost use Rattle.sb_link.specs.RingPlans.{RingPlan};
ghost use Rattle.sb_link.specs.Ends.{IsNewRing};
ghost use Rattle.sb_link.specs.PlanOf.{plan_of};
ghost use Rattle.sb_link.specs.Registries.{end_of, plans_of};

use crate::ends::RxEnd;
use crate::places::place_of;
use crate::plan::LinkPlan;
use crate::registered_ring::RegisteredRing;
use std::alloc::{AllocError, Global};

/// The rings that a fabric made, each with the receiving end that was handed back, if it was.
#[derive(Drop)]
pub struct RingRegistry<E: RxEnd> {
    pub rows: Vec<RegisteredRing<E>>,
}

impl<E: RxEnd> RingRegistry<E> {
    /// A registry of no ring. Takes no memory.
    pub fn new(alloc: Global) -> RingRegistry<E>
        ensures made { plans_of result.rows.items ≡ [] }
        ensures ends { (ring : ℕ) → end_of result.rows.items ring ≡ None }
    {
        RingRegistry {
            rows: Vec::new(alloc),
        }
    }

    /// Reserves a place for a ring that was made.
    ///
    /// # Errors
    ///
    /// `AllocError` where there isn't enough memory; then the registry is as before.
    pub fn add(&mut self, plan: &LinkPlan) -> Result<(), AllocError>
        requires new { IsNewRing plan.now.ring (plans_of self.old.rows.items) }
        ensures made { IfOk result (λ _. plans_of self.new.rows.items ≡ plans_of self.old.rows.items ++ plan_of plan.now ∷ []) }
        ensures unsettled { IfOk result (λ _. end_of self.new.rows.items plan.now.ring ≡ None) }
        ensures refused { IfErr result (λ _. plans_of self.new.rows.items ≡ plans_of self.old.rows.items) }
        ensures ends { (ring : ℕ) → end_of self.new.rows.items ring ≡ end_of self.old.rows.items ring }
    {
        self.rows.push(RegisteredRing {
            plan: *plan,
            end: None,
        })?;
        Ok(())
    }

    /// Keeps the receiving end of a ring in its place. Takes no memory.
    pub fn keep(&mut self, ring: u16, end: E)
        requires made { (k : ℕ) × (plan : RingPlan) × (slice_get (plans_of self.old.rows.items) k ≡ Some plan) × (plan.ring ≡ ring) }
        ensures made { plans_of self.new.rows.items ≡ plans_of self.old.rows.items }
        ensures kept { end_of self.new.rows.items ring ≡ Some end }
        ensures others { (other : ℕ) → other ≢ ring → end_of self.new.rows.items other ≡ end_of self.old.rows.items other }
    {
        let at = place_of(self.rows.as_slice(), ring);
        let row = &mut self.rows[at];
        row.end = Some(end);
    }
}
