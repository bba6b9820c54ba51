//! Ids of hosts, and where devices lie.

ghost use Rattle.std.specs.Prelude.{◌≡◌, ◌≢◌, ◌≤◌, ◌<◌, ◌+◌, ◌^◌, ◌==◌, length, map, nat_lt, not, option_map, vec_len, IfOk, IfErr, IfSome, OnOk, Ok, Err, None};
ghost use Rattle.std.specs.List.{position_from};
ghost use Rattle.sb_packet.specs.Networks.{device_size};
ghost use Rattle.sb_link.specs.RingPlans.{are_apart};
ghost use Rattle.sb_flow.specs.Rings.{range_of};
ghost use Rattle.sb_flow.specs.Accepted.{first_clash, is_placed_device, overlapping_device};
ghost use Rattle.sb_flow.specs.Rows.{device_of};
ghost use Rattle.sb_fields.specs.declared.fault.LoadFault.TheVariants as faults;
ghost use Rattle.sb_topology.specs.Held.{clash_of, draft_host, draft_network};
ghost use Rattle.sb_topology.specs.Places.{silent_host};
ghost use Rattle.sb_topology.specs.Tests.{devices_tested as devices_tested_by, image_length};

use crate::host_draft::HostDraft;
use crate::overlap::Overlap;
use crate::plan::Draft;
use sb_fields::LoadFault;
use sb_flow::DevicePlan;

/// The first of some hosts that has an id.
fn host_with(hosts: &[HostDraft<'_>], id: u8) -> Option<usize>
    ensures { result ≡ position_from (λ y. id == y.id) 0 (map silent_host (map draft_host hosts.now)) }
{
    for (place, host) in hosts.iter().enumerate() {
        if id == host.id {
            return Some(place);
        }
    }
    None
}

/// The first host with the id of an earlier one.
fn repeated_id(hosts: &[HostDraft<'_>]) -> Option<usize>
    ensures place { result ≡ option_map (λ clash. clash.at) (first_clash
        (λ x y. x.id == y.id) (map silent_host (map draft_host hosts.now))) }
    ensures there { IfSome result (λ place. place < length hosts.now) }
{
    for place in 0..hosts.len() {
        if let Some(_earlier) = host_with(&hosts[..place], hosts[place].id) {
            return Some(place);
        }
    }
    None
}

/// How many bytes a device has.
fn size_of(device: &DevicePlan) -> u128
    ensures size { result ≡ device_size (device_of device.now) }
    ensures small { result < 2 ^ 44 }
{
    device.pages as u128 * 4096
}

/// The end of a device's range.
fn end_of(device: &DevicePlan) -> u128
    ensures { result ≡ device.now.base + device_size (device_of device.now) }
{
    device.base as u128 + size_of(device)
}

/// A device begins with a page, and ends at most at `2^56`.
fn is_placed(device: &DevicePlan) -> bool
    ensures { result ≡ is_placed_device (device_of device.now) }
{
    device.base % 4096 == 0 && end_of(device) <= 1 << 56
}

/// The first device that isn't placed so.
fn misplaced(devices: &[DevicePlan]) -> Option<usize>
    ensures place { result ≡ position_from (λ d. not (is_placed_device d)) 0 (map device_of devices.now) }
    ensures there { IfSome result (λ place. place < length devices.now) }
{
    for (place, device) in devices.iter().enumerate() {
        if !is_placed(device) {
            return Some(place);
        }
    }
    None
}

/// Two devices have a byte in common.
fn do_overlap(device: &DevicePlan, other: &DevicePlan) -> bool
    ensures { result ≡ not (are_apart (range_of (device_of device.now)) (range_of (device_of other.now))) }
{
    let is_before = end_of(device) <= other.base as u128;
    let is_behind = end_of(other) <= device.base as u128;
    !(is_before || is_behind)
}

/// The first of some devices that a device overlaps.
fn overlapped(devices: &[DevicePlan], device: &DevicePlan) -> Option<usize>
    ensures place { result ≡ position_from
        (λ y. not (are_apart (range_of (device_of device.now)) (range_of y))) 0 (map device_of devices.now) }
    ensures there { IfSome result (λ place. place < length devices.now) }
{
    for (place, other) in devices.iter().enumerate() {
        if do_overlap(device, other) {
            return Some(place);
        }
    }
    None
}

/// The first device that overlaps an earlier one, and the first such.
fn first_overlap(devices: &[DevicePlan]) -> Option<Overlap>
    ensures clash { option_map clash_of result ≡ first_clash
        (λ x y. not (are_apart (range_of x) (range_of y))) (map device_of devices.now) }
    ensures there { IfSome result (λ overlap. overlap.device < length devices.now) }
    ensures earlier { IfSome result (λ overlap. overlap.other < overlap.device) }
{
    for device in 0..devices.len() {
        if let Some(other) = overlapped(&devices[..device], &devices[device]) {
            return Some(Overlap { device, other });
        }
    }
    None
}

/// A device's image is longer than the device.
fn is_overfull(device: &DevicePlan) -> bool
    ensures { result ≡ nat_lt (device_size (device_of device.now)) (length (device_of device.now).image) }
{
    size_of(device) < device.image.as_slice().len() as u128
}

/// The first device of which that is so.
fn overfull(devices: &[DevicePlan]) -> Option<usize>
    ensures place { result ≡ position_from
        (λ d. nat_lt (device_size d) (length d.image)) 0 (map device_of devices.now) }
    ensures there { IfSome result (λ place. place < length devices.now) }
{
    for (place, device) in devices.iter().enumerate() {
        if is_overfull(device) {
            return Some(place);
        }
    }
    None
}

/// `Image` of a device. That its image has `2^32` bytes, which no text of `2^26` bytes spells, would be want of memory.
fn image_fault(device: u8, plan: &DevicePlan) -> LoadFault
    ensures { result ≢ faults.Memory → (result ≡ faults.Image device (length (device_of plan.now).image)) }
{
    match u32::try_from(plan.image.as_slice().len()) {
        Ok(bytes) => LoadFault::Image { device, bytes },
        Err(_) => LoadFault::Memory,
    }
}

/// Ids of hosts, and where devices lie: the first fault of these.
#[tactic(auto, unfolding(crate::specs::Tests::unless_found, crate::specs::Tests::devices_tested))]
pub fn devices_tested(draft: &Draft<'_>) -> Result<(), LoadFault>
    ensures apart { OnOk result (overlapping_device (draft_network draft.now) ≡ None) }
    ensures ok { IfOk result (λ done. devices_tested_by (draft_network draft.now) ≡ Ok done) }
    ensures err { IfErr result (λ fault. fault ≢ faults.Memory
        → (devices_tested_by (draft_network draft.now) ≡ Err fault)) }
{
    let devices = draft.devices.as_slice();
    if let Some(host) = repeated_id(draft.hosts.as_slice()) {
        return Err(LoadFault::HostId { host: host as u8 });
    }
    if let Some(device) = misplaced(devices) {
        return Err(LoadFault::Range {
            device: device as u8,
        });
    }
    if let Some(overlap) = first_overlap(devices) {
        return Err(LoadFault::Overlap {
            device: overlap.device as u8,
            other: overlap.other as u8,
        });
    }
    match overfull(devices) {
        Some(device) => Err(image_fault(device as u8, &devices[device])),
        None => Ok(()),
    }
}
