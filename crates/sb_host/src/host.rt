//! A host at its link.

ghost use Rattle.std.specs.Prelude.{◌≡◌, ◌<◌, ◌*◌, List, [], Some, IfOk, length, slice_get, slice_index_or};
ghost use Rattle.std.specs.Borrow.{sem, Lends};
ghost use Rattle.sb_packet.specs.Accesses.{Access};
ghost use Rattle.sb_packet.specs.Networks.{NetHost};
ghost use Rattle.sb_packet.specs.Answers.{Outcome};
ghost use Rattle.sb_flow.specs.Rings.{ring_plan};
ghost use Rattle.sb_flow.specs.Ways.{first_link};
ghost use Rattle.sb_port.specs.Ports.{fresh_port};
ghost use Rattle.sb_port.specs.contracts.port.OutPort.{the_row as port_row};
ghost use Rattle.sb_node.specs.Sides.{ring_side};
ghost use Rattle.sb_flow.specs.NetworkOf.{network_of};
ghost use Rattle.sb_host.specs.Asked.{asked_by};
ghost use Rattle.sb_host.specs.Hosts.{IsWholeHost};
ghost use Rattle.sb_host.specs.Outcomes.{outcomes_so_far};
ghost use Rattle.sb_host.specs.Rows.{IsTable};
ghost use Rattle.sb_host.specs.contracts.host.Host.{the_row};

use crate::host_core::HostCore;
use crate::script::script_plan_of;
use crate::transactions::Transactions;
use sb_drive::Node;
use sb_flow::Bundle;
use sb_link::{Fabric, Turn};
use sb_packet::TxnState;
use sb_port::{OutLeg, OutPort};
use std::alloc::{AllocError, Global};
use std::marker::Model;

/// A host at its link. It issues the transactions of its script in order, and keeps what is answered, in whatever order
/// that comes. A transaction that is aimed at no device never enters the network.
#[derive(Drop)]
pub struct Host<F: Fabric> {
    core: HostCore<F::Tx, F::Rx>,
}

impl<F: Fabric> Model for Host<F> {
    ghost use Rattle.sb_host.specs.Hosts.{HostSide};

    ghost Value = { HostSide };

    ghost use Rattle.sb_host.specs.Hosts.{host_core_side};

    ghost view = { λ h. host_core_side F.Rx.RxEnd h.core };
}

impl<F: Fabric> Node for Host<F> {
    ghost use Rattle.sb_host.specs.Hosts.{IsHostTurn, IsKeptHost, IsWholeHost, kept_host_same, kept_host_then};
    ghost use Rattle.sb_host.specs.Rested.{IsRestedHost, rested_host_same, rested_host_then};

    ghost whole = { λ h. IsWholeHost h };

    ghost reaches = { λ round x y. IsKeptHost round x y };

    ghost rests = { λ x y. IsRestedHost x y };

    ghost turns = { λ x round answer y. IsHostTurn x round answer y };

    ghost reflexive = { λ round x. kept_host_same round x };

    ghost transitive = { λ round x y z a b. kept_host_then round x y z a b };

    ghost rests_reflexive = { λ x. rested_host_same x };

    ghost rests_transitive = { λ x y z a b. rested_host_then a b };

    fn turn(&mut self, round: u32) -> Turn {
        self.core.turn(round)
    }
}

/// The parts of a host that was taken apart.
#[derive(Drop)]
pub struct HostParts<F: Fabric> {
    pub transactions: Transactions,
    /// The port of its ring of requests.
    pub requests: OutPort<F::Tx>,
    /// The receiving end of its ring of answers.
    pub answers: F::Rx,
}

impl<F: Fabric> Host<F> {
    /// The host at that place of a bundle, at the leg of its own link, at which nothing was sent or received; the ring of
    /// requests has the plan that the bundle gives it. All the memory that the host will ever need is taken here.
    ///
    /// # Errors
    ///
    /// `AllocError` where there isn't enough memory; then the leg is dropped.
    pub fn new(
        alloc: Global,
        number: u8,
        bundle: &Bundle,
        leg: OutLeg<F>,
    ) -> Result<Host<F>, AllocError>
        requires number { number < length bundle.now.hosts.items }
        requires unsent { F.Tx.sent leg.requests ≡ [] }
        requires unreceived { F.Rx.received leg.answers ≡ [] }
        requires own { first_link (network_of bundle.now) number ≡ Some leg.link }
        requires planned { F.Tx.planned leg.requests ≡ ring_plan (network_of bundle.now) (2 * leg.link) }
        ensures whole { IfOk result (λ h. IsWholeHost h) }
        ensures asked { IfOk result (λ h. (host : NetHost) → slice_get (network_of bundle.now).hosts number ≡ Some host
            → h.transactions.asked ≡ asked_by (network_of bundle.now) host) }
        ensures table { IfOk result (λ h. IsTable h.transactions.asked [] h.transactions.rows) }
        ensures next { IfOk result (λ h. h.transactions.next ≡ 0) }
        ensures requests { IfOk result (λ h. h.requests ≡ fresh_port F.Tx.TxEnd leg.requests) }
        ensures answers { IfOk result (λ h. h.answers ≡ ring_side F.Rx.RxEnd leg.answers) }
    {
        let script_plan = script_plan_of(alloc, bundle, number)?;
        let transactions = Transactions::new(alloc, script_plan)?;
        let OutLeg {
            link: _,
            requests,
            answers,
        } = leg;
        Ok(Host {
            core: HostCore {
                transactions,
                requests: OutPort::new(requests),
                answers,
            },
        })
    }

    /// How many transactions its script has.
    pub fn count(&self) -> usize
        ensures count { result ≡ length self.now.transactions.asked.lines }
    {
        self.core.transactions.count()
    }

    /// How far the transaction at that place of the script has come.
    pub fn state(&self, index: u32) -> TxnState
        requires index { index < length self.now.transactions.asked.lines }
        ensures state { let t = self.now.transactions in (received : List Access) (none : Outcome) → IsTable t.asked received t.rows
            → (slice_index_or (outcomes_so_far t.asked received t.next) index none).state ≡ result }
    {
        self.core.transactions.state(index)
    }

    /// The bytes that were answered to it; none where it isn't answered.
    pub fn body(&self, index: u32) -> &[u8]
        requires index { index < length self.now.transactions.asked.lines }
        ensures body { let t = self.now.transactions in (received : List Access) (none : Outcome) → IsTable t.asked received t.rows
            → (slice_index_or (outcomes_so_far t.asked received t.next) index none).body ≡ result.now }
    {
        self.core.transactions.body(index)
    }

    /// Lends the port of its ring of requests, so that its end can meet the other one.
    pub fn requests(&mut self) -> &mut OutPort<F::Tx>
        ensures port { result.now ≡ self.old.requests }
        ensures* writes_back { sem 𝓛 (Lends (the_row F.row F.Tx.row F.Rx.row F.Fabric F.Tx.TxEnd F.Rx.RxEnd)
            (port_row F.Tx.row F.Tx.TxEnd) self.entry result (λ port. record self.old { requests = port })) }
    {
        let core = &mut self.core;
        &mut core.requests
    }

    /// Lends the receiving end of its ring of answers, so that it can meet the other one.
    pub fn answers(&mut self) -> &mut F::Rx
        ensures end { ring_side F.Rx.RxEnd result.now ≡ self.old.answers }
        ensures* writes_back { sem 𝓛 (Lends (the_row F.row F.Tx.row F.Rx.row F.Fabric F.Tx.TxEnd F.Rx.RxEnd)
            F.Rx.row self.entry result (λ end. record self.old { answers = ring_side F.Rx.RxEnd end })) }
    {
        let core = &mut self.core;
        &mut core.answers
    }

    /// Takes the host apart. Takes no memory.
    pub fn into_parts(self) -> HostParts<F>
        ensures transactions { result.transactions ≡ self.transactions }
        ensures requests { result.requests ≡ self.requests }
        ensures answers { ring_side F.Rx.RxEnd result.answers ≡ self.answers }
    {
        let HostCore {
            transactions,
            requests,
            answers,
        } = self.core;
        HostParts {
            transactions,
            requests,
            answers,
        }
    }
}
