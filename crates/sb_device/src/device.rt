//! A device at its link.

ghost use Rattle.std.specs.Prelude.{◌≡◌, [], IfOk};
ghost use Rattle.std.specs.Borrow.{sem, Lends};
ghost use Rattle.sb_port.specs.Ports.{fresh_port};
ghost use Rattle.sb_port.specs.contracts.port.OutPort.{the_row as port_row};
ghost use Rattle.sb_node.specs.Sides.{ring_side};
ghost use Rattle.sb_device.specs.Plans.{IsPlannedFor};
ghost use Rattle.sb_device.specs.Served.{HasServed};
ghost use Rattle.sb_device.specs.Devices.{IsWholeDevice};
ghost use Rattle.sb_device.specs.contracts.device.Device.{the_row};

use crate::device_state::DeviceState;
use crate::serving::turn_ends;
use sb_drive::Node;
use sb_link::{Fabric, RxEnd, Turn};
use sb_mem::Memory;
use sb_packet::{Entry, Journal};
use sb_port::{InLeg, OutPort};
use std::alloc::{AllocError, Global};
use std::marker::Model;

/// A byte memory at its link. It serves one request after another as they come in: it steps its memory, puts the
/// request into its journal, and answers.
#[derive(Drop)]
pub struct Device<F: Fabric> {
    state: DeviceState,
    requests: F::Rx,
    answers: OutPort<F::Tx>,
}

impl<F: Fabric> Model for Device<F> {
    ghost use Rattle.sb_device.specs.Sides.{DeviceSide};
    ghost use Rattle.sb_device.specs.SideOf.{side_of};

    ghost Value = { DeviceSide };

    ghost view = { λ d. side_of F.Rx.RxEnd d.state d.requests d.answers };
}

impl<F: Fabric> Node for Device<F> {
    ghost use Rattle.sb_device.specs.Devices.{IsDeviceTurn, IsKeptDevice, IsWholeDevice, kept_device_same, kept_device_then};
    ghost use Rattle.sb_device.specs.Rested.{IsRestedDevice, rested_device_same, rested_device_then};

    ghost whole = { λ d. IsWholeDevice d };

    ghost reaches = { λ round x y. IsKeptDevice round x y };

    ghost rests = { λ x y. IsRestedDevice x y };

    ghost turns = { λ x round answer y. IsDeviceTurn x answer y };

    ghost reflexive = { λ round x. kept_device_same round _ };

    ghost transitive = { λ round x y z a b. kept_device_then round _ _ _ a b };

    ghost rests_reflexive = { λ x. rested_device_same _ };

    ghost rests_transitive = { λ x y z a b. rested_device_then _ _ _ a b };

    fn turn(&mut self, round: u32) -> Turn {
        turn_ends(
            &mut self.state,
            &mut self.requests,
            &mut self.answers,
            round,
        )
    }
}

impl<F: Fabric> Device<F> {
    /// A device at its leg, at which nothing was sent or received. The rings of the leg are made for it: they have the
    /// same flows, which lead to this device alone, and its memory lies where the flows say. All the memory that it
    /// will ever need for its journal is taken here.
    ///
    /// # Errors
    ///
    /// `AllocError` where there isn't enough memory; then the leg is dropped.
    pub fn new(
        alloc: Global,
        number: u8,
        memory: Memory,
        leg: InLeg<F>,
    ) -> Result<Device<F>, AllocError>
        requires unreceived { F.Rx.received leg.requests ≡ [] }
        requires unsent { F.Tx.sent leg.answers ≡ [] }
        requires planned { IsPlannedFor number memory (F.Rx.planned leg.requests) (F.Tx.planned leg.answers) }
        ensures whole { IfOk result (λ d. IsWholeDevice d) }
        ensures serves { IfOk result (λ d. HasServed memory d) }
        ensures number { IfOk result (λ d. d.number ≡ number) }
        ensures memory { IfOk result (λ d. d.memory ≡ memory) }
        ensures journal { IfOk result (λ d. d.journal.entries ≡ []) }
        ensures requests { IfOk result (λ d. d.requests ≡ ring_side F.Rx.RxEnd leg.requests) }
        ensures answers { IfOk result (λ d. d.answers ≡ fresh_port F.Tx.TxEnd leg.answers) }
    {
        let budget = leg.requests.plan().budget;
        let mut journal = Journal::new(alloc);
        journal.reserve(budget)?;
        let InLeg {
            link: _,
            requests,
            answers,
        } = leg;
        Ok(Device {
            state: DeviceState {
                number,
                memory,
                journal,
            },
            requests,
            answers: OutPort::new(answers),
        })
    }

    /// The packets that it served, in order.
    pub fn journal(&self) -> &[Entry]
        ensures { result.now ≡ self.now.journal.entries }
    {
        self.state.journal.entries()
    }

    /// The bytes of its memory, in the order of addresses.
    pub fn image(&self) -> &[u8]
        ensures { result.now ≡ self.now.memory.bytes }
    {
        self.state.memory.image()
    }

    /// Lends the port by which answers go out, so that its end can meet the other one.
    pub fn answers(&mut self) -> &mut OutPort<F::Tx>
        ensures answers { result.now ≡ self.old.answers }
        ensures* writes_back { sem 𝓛 (Lends (the_row F.row F.Tx.row F.Rx.row F.Fabric F.Tx.TxEnd F.Rx.RxEnd)
            (port_row F.Tx.row F.Tx.TxEnd) self.entry result (λ port. record self.old { answers = port })) }
    {
        &mut self.answers
    }

    /// Lends the end of the ring by which requests come in, so that it can meet the other one.
    pub fn requests(&mut self) -> &mut F::Rx
        ensures requests { ring_side F.Rx.RxEnd result.now ≡ self.old.requests }
        ensures* writes_back { sem 𝓛 (Lends (the_row F.row F.Tx.row F.Rx.row F.Fabric F.Tx.TxEnd F.Rx.RxEnd)
            F.Rx.row self.entry result (λ end. record self.old { requests = ring_side F.Rx.RxEnd end })) }
    {
        &mut self.requests
    }

    /// Takes the device apart: the end of its ring, its port, and its memory with the journal. Takes no memory.
    pub fn into_parts(self) -> (F::Rx, OutPort<F::Tx>, DeviceState)
        ensures requests { ring_side F.Rx.RxEnd result.0 ≡ self.requests }
        ensures answers { result.1 ≡ self.answers }
        ensures number { result.2.number ≡ self.number }
        ensures memory { result.2.memory ≡ self.memory }
        ensures journal { result.2.journal ≡ self.journal }
    {
        let Device {
            state,
            requests,
            answers,
        } = self;
        (requests, answers, state)
    }
}
