//! Laws of devices.

ghost use Rattle.std.specs.Prelude.{◌≡◌, ℕ, All, List};
ghost use Rattle.sb_packet.specs.Journals.{journal_accesses};
ghost use Rattle.sb_packet.specs.Memories.{MemoryState};
ghost use Rattle.sb_link.specs.Traffic.{item_accesses};
ghost use Rattle.sb_packet.specs.declared.entry.Entry.{Entry};
ghost use Rattle.sb_packet.specs.declared.item.Item.{Item};
ghost use Rattle.sb_port.specs.Ports.{PortSide, offered_words};
ghost use Rattle.sb_node.specs.Sides.{RingSide};
ghost use Rattle.sb_node.specs.Kept.{IsPortMet, IsRingMet};
ghost use Rattle.sb_device.specs.Sides.{DeviceSide};
ghost use Rattle.sb_device.specs.Served.{HasServed, entry_accesses, entry_packets, item_packets};
ghost use Rattle.sb_device.specs.Devices.{IsWholeDevice};
ghost use Rattle.sb_device.specs.Rested.{IsRestedDevice};

/// Where a device's journal has the packets that came in, it has their words, and they are all its words at that device.
pub fn journal_is_what_came()
    ensures words { (journal : List Entry) (received : List Item)
        → entry_packets journal ≡ item_packets received → entry_accesses journal ≡ item_accesses received }
    ensures device { (number : ℕ) (journal : List Entry)
        → All (λ e. e.device ≡ number) journal → journal_accesses journal number ≡ entry_accesses journal }
{}

/// A device whose ring's end or port has met the other one is whole still, and goes on with what it served.
pub fn device_stays_whole()
    ensures ring { (d : DeviceSide) (ring : RingSide)
        → IsWholeDevice d → IsRingMet d.requests ring → IsWholeDevice (record d { requests = ring }) }
    ensures port { (d : DeviceSide) (port : PortSide)
        → IsWholeDevice d → IsPortMet d.answers port → IsWholeDevice (record d { answers = port }) }
    ensures ring_serves { (opening : MemoryState) (d : DeviceSide) (ring : RingSide)
        → HasServed opening d → IsRingMet d.requests ring → HasServed opening (record d { requests = ring }) }
    ensures port_serves { (opening : MemoryState) (d : DeviceSide) (port : PortSide)
        → HasServed opening d → IsPortMet d.answers port → HasServed opening (record d { answers = port }) }
{}

/// A device that rested received, offered and sent nothing, and has to send what it had to send.
pub fn rested_devices_are_still()
    ensures received { (before after : DeviceSide) → IsRestedDevice before after → after.requests.received ≡ before.requests.received }
    ensures offered { (before after : DeviceSide)
        → IsRestedDevice before after → offered_words after.answers ≡ offered_words before.answers }
    ensures sent { (before after : DeviceSide) → IsRestedDevice before after → after.answers.state.sent ≡ before.answers.state.sent }
    ensures held { (before after : DeviceSide) → IsRestedDevice before after → after.answers.state.waiting ≡ before.answers.state.waiting }
{}
