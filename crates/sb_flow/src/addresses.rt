//! Which device has an address.

ghost use Rattle.std.specs.Prelude.{◌≡◌, ◌<◌, length, IfSome};
ghost use Rattle.std.specs.List.{position_from};
ghost use Rattle.sb_packet.specs.Networks.{device_at, device_size, has_address};
ghost use Rattle.sb_flow.specs.Rows.{device_of};
ghost use Rattle.sb_flow.specs.NetworkOf.{network_of};

use crate::bundle::Bundle;
use crate::device_plan::DevicePlan;

/// How many bytes a device has; a page has 4,096.
pub fn size(device: &DevicePlan) -> u64
    ensures { result ≡ device_size (device_of device.now) }
{
    let pages = device.pages;
    u64::from(pages) * 4096
}

/// An address lies in a device's range.
pub fn has(device: &DevicePlan, address: u64) -> bool
    ensures { result ≡ has_address address (device_of device.now) }
{
    device.base <= address && address - device.base < size(device)
}

/// The first of some devices that has an address.
fn first_with(devices: &[DevicePlan], address: u64) -> Option<usize>
    ensures place { result ≡ position_from (λ d. has_address address (device_of d)) 0 devices.now }
    ensures there { IfSome result (λ place. place < length devices.now) }
{
    devices.iter().position(|d| has(d, address))
}

/// The device that has an address; None exactly where no device has it. It takes no memory.
#[tactic(auto, using(crate::proofs::Maps::position_of_map))]
pub fn target(bundle: &Bundle, address: u64) -> Option<u8>
    ensures { result ≡ device_at (network_of bundle.now) address }
{
    let place = first_with(&bundle.devices, address)?;
    Some(place as u8)
}
