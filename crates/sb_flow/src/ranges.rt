//! Where the devices of a bundle lie, beside the flows of a ring.

ghost use Rattle.std.specs.Prelude.{◌≡◌, length, map, slice_get};
ghost use Rattle.std.specs.List.{range_with_len};
ghost use Rattle.std.specs.Option.{option_map_or};
ghost use Rattle.sb_packet.specs.Networks.{device_size};
ghost use Rattle.sb_flow.specs.Rings.{network_ranges};
ghost use Rattle.sb_link.specs.Plans.{bits_of};
ghost use Rattle.sb_link.specs.PlanOf.{flows_of};
ghost use Rattle.sb_flow.specs.Rows.{device_of};
ghost use Rattle.sb_flow.specs.NetworkOf.{network_of};

use crate::addresses::size;
use crate::bundle::Bundle;
use crate::device_plan::DevicePlan;
use sb_link::Flows;

/// The first address of a device; 0 where there is no such device.
fn base_at(devices: &[DevicePlan], place: usize) -> u64
    ensures { result ≡ option_map_or (λ d. d.base) (slice_get devices.now place) 0 }
{
    match devices.get(place) {
        None => 0,
        Some(device) => device.base,
    }
}

/// The number of bytes of a device; 0 where there is no such device.
fn size_at(devices: &[DevicePlan], place: usize) -> u64
    ensures { result ≡ option_map_or (λ d. device_size (device_of d)) (slice_get devices.now place) 0 }
{
    match devices.get(place) {
        None => 0,
        Some(device) => size(device),
    }
}

/// The first addresses of 32 devices.
fn bases(devices: &[DevicePlan]) -> [u64; 32]
    ensures { result ≡ map (λ k. option_map_or (λ d. d.base) (slice_get devices.now k) 0) (range_with_len 0 32) }
{
    let mut bases = [0; 32];
    for place in 0..32 {
        bases[place] = base_at(devices, place);
    }
    bases
}

/// The numbers of bytes of 32 devices.
fn sizes(devices: &[DevicePlan]) -> [u64; 32]
    ensures { result
        ≡ map (λ k. option_map_or (λ d. device_size (device_of d)) (slice_get devices.now k) 0) (range_with_len 0 32) }
{
    let mut sizes = [0; 32];
    for place in 0..32 {
        sizes[place] = size_at(devices, place);
    }
    sizes
}

/// The ranges of all devices, with such flows.
pub fn flows(bundle: &Bundle, through: [u32; 32]) -> Flows
    requires { length through ≡ 32 }
    ensures { let network = network_of bundle.now in flows_of result
        ≡ record { devices = length network.devices; ranges = network_ranges network; through = map bits_of through } }
{
    Flows {
        count: bundle.devices.len() as u8,
        base: bases(&bundle.devices),
        bytes: sizes(&bundle.devices),
        through,
    }
}
