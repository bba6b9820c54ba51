//! The ends of a router's links, as it begins with them.

ghost use Rattle.std.specs.Prelude.{◌≡◌, [], ◌∷◌, ◌++◌, All, map, IfOk, OnOk};
ghost use Rattle.sb_port.specs.Ports.{fresh_port};
ghost use Rattle.sb_router.specs.Lanes.{IsFreshPair, fresh_inlet};
ghost use Rattle.sb_router.specs.Forwarding.{IsWholeOutlet};

use crate::inlet::Inlet;
use sb_link::{Fabric, RxEnd, TxEnd};
use sb_port::{InLeg, OutLeg, OutPort};
use std::alloc::{AllocError, Global};

/// The ends of a router's links on one side of it: rings that come in, and rings that go out.
#[derive(Drop)]
pub struct Ends<T: TxEnd, U: RxEnd> {
    pub inlets: Vec<Inlet<U>>,
    pub outlets: Vec<OutPort<T>>,
}

impl<T: TxEnd, U: RxEnd> Ends<T, U> {
    /// No ends.
    pub fn new(alloc: Global) -> Ends<T, U>
        ensures inlets { result.inlets.items ≡ [] }
        ensures outlets { result.outlets.items ≡ [] }
    {
        Ends {
            inlets: Vec::new(alloc),
            outlets: Vec::new(alloc),
        }
    }

    /// Adds the ends of a link, at which nothing was received or sent.
    ///
    /// # Errors
    ///
    /// `AllocError` where there isn't enough memory.
    pub fn add(&mut self, from: U, to: T) -> Result<(), AllocError>
        requires fresh { IsFreshPair T.TxEnd U.RxEnd to from }
        ensures inlets { OnOk result (self.new.inlets.items ≡ self.old.inlets.items ++ fresh_inlet U.RxEnd from ∷ []) }
        ensures outlets { OnOk result (self.new.outlets.items ≡ self.old.outlets.items ++ fresh_port T.TxEnd to ∷ []) }
        ensures whole { OnOk result (All IsWholeOutlet self.old.outlets.items → All IsWholeOutlet self.new.outlets.items) }
    {
        self.inlets.push(Inlet::new(from))?;
        self.outlets.push(OutPort::new(to))?;
        Ok(())
    }
}

/// The ends of the links that lead to a router: requests come in, and answers go out.
///
/// # Errors
///
/// `AllocError` where there isn't enough memory; then the links are dropped.
pub fn ends_in<F: Fabric>(
    alloc: Global,
    legs: Vec<InLeg<F>>,
) -> Result<Ends<F::Tx, F::Rx>, AllocError>
    requires fresh { All (λ leg. IsFreshPair F.Tx.TxEnd F.Rx.RxEnd leg.answers leg.requests) legs.items }
    ensures inlets { IfOk result (λ ends. ends.inlets.items ≡ map (λ leg. fresh_inlet F.Rx.RxEnd leg.requests) legs.items) }
    ensures outlets { IfOk result (λ ends. ends.outlets.items ≡ map (λ leg. fresh_port F.Tx.TxEnd leg.answers) legs.items) }
    ensures whole { IfOk result (λ ends. All IsWholeOutlet ends.outlets.items) }
{
    let mut legs = legs;
    let mut ends = Ends::new(alloc);
    while !legs.is_empty() {
        let InLeg {
            link: _,
            requests,
            answers,
        } = legs.remove(0);
        ends.add(requests, answers)?;
    }
    Ok(ends)
}

/// The ends of the links that lead on from a router: answers come in, and requests go out.
///
/// # Errors
///
/// `AllocError` where there isn't enough memory; then the links are dropped.
pub fn ends_out<F: Fabric>(
    alloc: Global,
    legs: Vec<OutLeg<F>>,
) -> Result<Ends<F::Tx, F::Rx>, AllocError>
    requires fresh { All (λ leg. IsFreshPair F.Tx.TxEnd F.Rx.RxEnd leg.requests leg.answers) legs.items }
    ensures inlets { IfOk result (λ ends. ends.inlets.items ≡ map (λ leg. fresh_inlet F.Rx.RxEnd leg.answers) legs.items) }
    ensures outlets { IfOk result (λ ends. ends.outlets.items ≡ map (λ leg. fresh_port F.Tx.TxEnd leg.requests) legs.items) }
    ensures whole { IfOk result (λ ends. All IsWholeOutlet ends.outlets.items) }
{
    let mut legs = legs;
    let mut ends = Ends::new(alloc);
    while !legs.is_empty() {
        let OutLeg {
            link: _,
            requests,
            answers,
        } = legs.remove(0);
        ends.add(answers, requests)?;
    }
    Ok(ends)
}
