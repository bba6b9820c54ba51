//! Which flow a packet is of, and whether it goes over a ring.

ghost use Rattle.std.specs.Prelude.{◌≡◌, ◌<◌, ◌-◌, ◌&&◌, nat_le, length, IfSome};
ghost use Rattle.std.specs.List.{position_from, zip};
ghost use Rattle.std.specs.Option.{option_map};
ghost use Rattle.sb_packet.specs.Messages.{message_of};
ghost use Rattle.sb_link.specs.RingPlans.{device_ranges, goes_home, holds_span, is_allowed, message_flow};
ghost use Rattle.sb_packet.specs.Journals.{is_request};
ghost use Rattle.sb_packet.specs.Cuts.{device_place};
ghost use Rattle.sb_link.specs.Plans.{flow_of, has_bytes};
ghost use Rattle.sb_link.specs.PlanOf.{flows_of};

use crate::flow::Flow;
use crate::flows::Flows;
use sb_packet::{Op, Packet, span};

// a host has 2^40 addresses for its answers
const HOST_BITS: u32 = 40;

impl Flows {
    /// The flow that a packet is of: that of its host to the device whose range holds all bytes of which the packet
    /// speaks. None where no range holds them, and for an answer that doesn't go to one of its host's `2^40`
    /// addresses.
    pub fn flow(&self, p: &Packet) -> Option<Flow>
        ensures flow { option_map flow_of result ≡ message_flow (flows_of self.now) (message_of p.now) }
    {
        if !is_going_home(p) {
            return None;
        }
        let device = self.device_with(place_at_device(p), u64::from(span(&p.cmd)))?;
        Some(Flow {
            host: p.cmd.host,
            device,
        })
    }

    /// Whether the packet is of a flow that goes over the ring.
    pub fn allows(&self, p: &Packet) -> bool
        ensures allowed { result ≡ is_allowed (flows_of self.now) (message_of p.now) }
    {
        match self.flow(p) {
            Some(flow) => (self.through[usize::from(flow.host)] >> flow.device) & 1 == 1,
            None => false,
        }
    }

    // the device whose range holds so many bytes from an address on
    fn device_with(&self, address: u64, bytes: u64) -> Option<u8>
        ensures device { result ≡ position_from (holds_span address bytes) 0 (device_ranges (flows_of self.now)) }
    {
        let count = usize::from(self.count);
        let place = range_with(&self.base[..count], &self.bytes[..count], address, bytes)?;
        Some(place as u8)
    }
}

// the place of the first range that holds so many bytes from an address on
fn range_with(bases: &[u64], sizes: &[u64], address: u64, bytes: u64) -> Option<usize>
    ensures place { result ≡ position_from (has_bytes address bytes) 0 (zip bases.now sizes.now) }
    ensures within { IfSome result (λ place. place < length bases.now) }
{
    bases.iter().zip(sizes.iter()).position(|(base, size)| {
        *base <= address && bytes <= *size && address - *base <= *size - bytes
    })
}

// an answer goes back among its host's addresses
fn is_going_home(p: &Packet) -> bool
    ensures home { result ≡ goes_home (message_of p.now) }
{
    asks(p.cmd.op) || p.dst >> HOST_BITS == u64::from(p.cmd.host)
}

// the address at the device
fn place_at_device(p: &Packet) -> u64
    ensures place { result ≡ device_place (message_of p.now) }
{
    if asks(p.cmd.op) { p.dst } else { p.src }
}

// a request, where the others are answers
fn asks(op: Op) -> bool
    ensures asks { result ≡ is_request op }
{
    match op {
        Op::ReqRd | Op::ReqWr | Op::ReqWrPosted | Op::ReqAtomic => true,
        Op::RespRd | Op::RespWr => false,
    }
}
