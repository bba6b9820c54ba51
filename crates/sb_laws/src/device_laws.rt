//! Laws of devices as they stand in a network: they keep the promises on which whole runs rest.

ghost use Rattle.std.specs.Prelude.{◌≡◌, ◌<◌, ℕ, false, List, [], ◌∷◌, length, All, None};
ghost use Rattle.sb_device.specs.Sides.{DeviceSide};
ghost use Rattle.sb_device.specs.Served.{HasServed, entry_accesses, entry_packets, item_packets};
ghost use Rattle.sb_node.specs.Steps.{IsBlockedPort};
ghost use Rattle.sb_node.specs.Idle.{IsIdleAt};
ghost use Rattle.sb_node.specs.Sides.{RingSide, has_ended};
ghost use Rattle.sb_packet.specs.Journals.{journal_accesses};
ghost use Rattle.sb_packet.specs.Networks.{Network, opening_memory};
ghost use Rattle.sb_link.specs.RingPlans.{NetFlow};
ghost use Rattle.sb_packet.specs.declared.entry.Entry.{Entry};
ghost use Rattle.sb_port.specs.Ports.{IsFit, PortSide};
ghost use Rattle.sb_laws.specs.Flows.{budget_over};
ghost use Rattle.sb_laws.specs.NodeSides.{HasPort, HasRing, IsDeviceAt, ShowsPort, ShowsRing};
ghost use Rattle.sb_laws.specs.Layouts.{Layout};
ghost use Rattle.sb_laws.specs.Moments.{Moment, arrived};
ghost use Rattle.sb_laws.specs.NetworkLayouts.{IsRouted, network_flows, network_layout};
ghost use Rattle.sb_laws.specs.Runs.{IsDevice};
ghost use Rattle.sb_laws.specs.Standstills.{IsIdleReceiver, IsIdleSender, RoundEnd, Stages};

/// A device that served what came in keeps a device's promise, where the journal has its entries.
pub fn devices_keep_their_promise()
    ensures promise { (network : Network) (layout : Layout) (journal : List Entry) (m : Moment) (f : NetFlow) (device : DeviceSide)
        → HasRing m (layout.into f.device) device.requests → HasPort m (layout.answers.first f) device.answers
        → device.answers.plan.budget ≡ budget_over layout.answers (layout.answers.first f)
        → journal_accesses journal f.device ≡ entry_accesses device.journal.entries
        → HasServed (opening_memory network f.device) device
        → IsDevice network layout journal m f }
    ensures recorded { (layout : Layout) (journal : List Entry) (m : Moment) (d : ℕ) (device : DeviceSide)
        → HasRing m (layout.into d) device.requests
        → journal_accesses journal d ≡ entry_accesses device.journal.entries
        → entry_packets device.journal.entries ≡ item_packets device.requests.received
        → journal_accesses journal d ≡ arrived m (layout.into d) }
{}

/// Where each device stands so in its network, at the two rings of the link that leads to it, each flow's device keeps its
/// promise: all that whole runs ask of devices.
pub fn devices_keep_promises_for_all_flows()
    ensures promises { (network : Network) (journal : List Entry) (m : Moment) (device : ℕ → DeviceSide)
        → IsRouted network → ((d : ℕ) → d < length network.devices → IsDeviceAt network journal m d (device d))
        → All (IsDevice network (network_layout network) journal m) (network_flows network) }
{}

/// A device that did nothing in its turn is idle at the ring that leads to it, and at the ring that leads back.
pub fn idle_devices_are_idle()
    ensures receiver { (stages : Stages) (s : RoundEnd) (into back : ℕ) (ring : RingSide) (port : PortSide)
        → ShowsRing s into ring → ShowsPort s back port
        → back < stages.rings → stages.from back ≡ stages.to into
        → s.holds into ≡ None → s.at.held into ≡ []
        → IsIdleAt (λ ring. IsBlockedPort port) (port ∷ []) (ring ∷ [])
        → IsIdleReceiver stages s into }
    ensures sender { (stages : Stages) (s : RoundEnd) (into back : ℕ) (ring : RingSide) (port : PortSide)
        → ShowsRing s into ring → ShowsPort s back port
        → into < stages.rings → stages.goes_out into ≡ false → stages.from back ≡ stages.to into
        → stages.leaves_host back ≡ false
        → IsFit port.plan port.state → port.state.close_requested ≡ has_ended ring
        → IsIdleAt (λ ring. IsBlockedPort port) (port ∷ []) (ring ∷ [])
        → IsIdleSender stages s back }
{}
