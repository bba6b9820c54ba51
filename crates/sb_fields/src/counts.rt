//! The ranges of a bundle's numbers.

ghost use Rattle.std.specs.Prelude.{◌≡◌, ◌≢◌, ◌≤◌, [], codes, length, map, sum_by, vec_len, IfOk, IfErr, OnOk, Ok, Err};
ghost use Rattle.sb_fields.specs.declared.fault.LoadFault.TheVariants as faults;
ghost use Rattle.sb_fields.specs.Paths.{member_of};
ghost use Rattle.sb_fields.specs.Counts.{all_pages as all_pages_by, bundle_counts, device_counts, devices_counts, host_counts, in_range as in_range_by, link_counts, list_counts, router_counts};
ghost use Rattle.sb_fields.specs.Written.{WrittenDevice, WrittenHost, WrittenLink, WrittenRouter};
ghost use Rattle.sb_fields.specs.Held.{written_bundle, written_device, written_host, written_link, written_router};
ghost use Rattle.sb_fields.specs.Counted.{counted_bundle as counted_of, counted_device, counted_host, counted_link, counted_router};

use crate::counted::{CountedBundle, CountedDevice, CountedHost, CountedLink, CountedRouter};
use crate::fault::LoadFault;
use crate::narrow::{Countable, counted_items};
use crate::paths::count_fault;
use crate::texts::{BundleText, DeviceText, HostText, LinkText, RouterText};
use std::alloc::Global;

/// A number that is the field of an object at a path, from `least` to `most`.
#[tactic(auto, unfolding(crate::specs::Counts::in_range))]
fn in_range(
    alloc: Global,
    least: u128,
    most: u128,
    number: u128,
    at: &str,
    name: &str,
) -> Result<(), LoadFault>
    ensures ok { IfOk result (λ done. in_range_by least most number at.now name.now ≡ Ok done) }
    ensures least { OnOk result (least ≤ number) }
    ensures most { OnOk result (number ≤ most) }
    ensures err { IfErr result (λ fault. fault ≢ faults.Memory
        → (in_range_by least most number at.now name.now ≡ Err fault)) }
{
    if least <= number && number <= most {
        Ok(())
    } else {
        Err(count_fault(alloc, at, name))
    }
}

#[tactic(auto, unfolding(crate::specs::Counts::host_counts))]
impl<'v> Countable for HostText<'v> {
    type Counted = CountedHost<'v>;

    ghost Written = { WrittenHost };

    ghost before = { written_host };

    ghost after = { counted_host };

    ghost counts = { host_counts };

    fn counted(self, alloc: Global, at: &str) -> Result<CountedHost<'v>, LoadFault> {
        in_range(alloc, 0, 31, self.id as u128, at, "id")?;
        in_range(alloc, 0, 15, self.qos as u128, at, "qos")?;
        in_range(alloc, 0, 3, self.prot as u128, at, "prot")?;
        match in_range(alloc, 0, 65536, self.script.len() as u128, at, "script") {
            Ok(()) => Ok(CountedHost {
                name: self.name,
                id: self.id as u8,
                qos: self.qos as u8,
                prot: self.prot as u8,
                script: self.script,
            }),
            Err(fault) => Err(fault),
        }
    }
}

#[tactic(auto, unfolding(crate::specs::Counts::router_counts))]
impl<'v> Countable for RouterText<'v> {
    type Counted = CountedRouter<'v>;

    ghost Written = { WrittenRouter };

    ghost before = { written_router };

    ghost after = { counted_router };

    ghost counts = { router_counts };

    fn counted(self, alloc: Global, at: &str) -> Result<CountedRouter<'v>, LoadFault> {
        in_range(alloc, 0, 1, self.side as u128, at, "side")?;
        Ok(CountedRouter {
            name: self.name,
            side: self.side as u8,
            routes: self.routes,
        })
    }
}

#[tactic(auto, unfolding(crate::specs::Counts::device_counts))]
impl<'v> Countable for DeviceText<'v> {
    type Counted = CountedDevice<'v>;

    ghost Written = { WrittenDevice };

    ghost before = { written_device };

    ghost after = { counted_device };

    ghost counts = { device_counts };

    fn counted(self, alloc: Global, at: &str) -> Result<CountedDevice<'v>, LoadFault> {
        in_range(alloc, 1, 256, self.pages as u128, at, "pages")?;
        Ok(CountedDevice {
            name: self.name,
            base: self.base,
            pages: self.pages as u32,
            readonly: self.readonly,
            image: self.image,
        })
    }
}

#[tactic(auto, unfolding(crate::specs::Counts::link_counts))]
impl<'v> Countable for LinkText<'v> {
    type Counted = CountedLink<'v>;

    ghost Written = { WrittenLink };

    ghost before = { written_link };

    ghost after = { counted_link };

    ghost counts = { link_counts };

    fn counted(self, alloc: Global, at: &str) -> Result<CountedLink<'v>, LoadFault> {
        match in_range(alloc, 1, 1024, self.capacity as u128, at, "capacity") {
            Ok(()) => Ok(CountedLink {
                name: self.name,
                from: self.from,
                to: self.to,
                width: self.width,
                capacity: self.capacity as u16,
            }),
            Err(fault) => Err(fault),
        }
    }
}

/// The list that is that field of the bundle, from one item up to `most`.
#[tactic(auto, unfolding(crate::specs::Counts::list_counts))]
fn counted_list<T: Countable>(
    alloc: Global,
    most: u128,
    name: &str,
    items: Vec<T>,
) -> Result<Vec<T::Counted>, LoadFault>
    ensures ok { IfOk result (λ found. list_counts T.Countable.counts most name.now (map T.Countable.before items.items) ≡ Ok tt) }
    ensures same { IfOk result (λ found. map T.Countable.after found.items ≡ map T.Countable.before items.items) }
    ensures least { IfOk result (λ found. 1 ≤ vec_len found) }
    ensures most { IfOk result (λ found. vec_len found ≤ most) }
    ensures err { IfErr result (λ fault. fault ≢ faults.Memory
        → (list_counts T.Countable.counts most name.now (map T.Countable.before items.items) ≡ Err fault)) }
{
    in_range(alloc, 1, most, items.len() as u128, "", name)?;
    counted_items(alloc, name, items)
}

/// The pages of some devices together.
fn all_pages(devices: &[DeviceText<'_>]) -> u128
    requires { length devices.now ≤ 32 }
    ensures { result ≡ all_pages_by (map written_device devices.now) }
{
    let mut total: u128 = 0;
    for device in devices {
        total += device.pages as u128;
    }
    total
}

/// The devices of a bundle.
#[tactic(auto, unfolding(crate::specs::Counts::devices_counts))]
fn counted_devices(
    alloc: Global,
    devices: Vec<DeviceText<'_>>,
) -> Result<Vec<CountedDevice<'_>>, LoadFault>
    ensures ok { IfOk result (λ found. devices_counts (map written_device devices.entry.items) ≡ Ok tt) }
    ensures same { IfOk result (λ found. map counted_device found.items ≡ map written_device devices.entry.items) }
    ensures least { IfOk result (λ found. 1 ≤ vec_len found) }
    ensures most { IfOk result (λ found. vec_len found ≤ 32) }
    ensures err { IfErr result (λ fault. fault ≢ faults.Memory
        → (devices_counts (map written_device devices.entry.items) ≡ Err fault)) }
{
    if let Err(fault) = in_range(alloc, 1, 32, devices.len() as u128, "", "devices") {
        return Err(fault);
    }
    in_range(alloc, 0, 4096, all_pages(devices.as_slice()), "", "devices")?;
    counted_items(alloc, "devices", devices)
}

/// A bundle, if all its numbers but the widths of links are in their ranges.
pub fn counted_bundle(alloc: Global, bundle: BundleText<'_>) -> Result<CountedBundle<'_>, LoadFault>
    ensures ok { IfOk result (λ counted. bundle_counts (written_bundle bundle.entry) ≡ Ok tt) }
    ensures same { IfOk result (λ counted. counted_of counted ≡ written_bundle bundle.entry) }
    ensures hosts { IfOk result (λ counted. vec_len counted.hosts ≤ 32) }
    ensures routers { IfOk result (λ counted. vec_len counted.routers ≤ 32) }
    ensures devices { IfOk result (λ counted. vec_len counted.devices ≤ 32) }
    ensures links { IfOk result (λ counted. vec_len counted.links ≤ 128) }
    ensures err { IfErr result (λ fault. fault ≢ faults.Memory
        → (bundle_counts (written_bundle bundle.entry) ≡ Err fault)) }
{
    if let Err(fault) = in_range(alloc, 1, 1, bundle.version as u128, "", "version") {
        return Err(fault);
    }
    let hosts = counted_list(alloc, 32, "hosts", bundle.hosts)?;
    let routers = counted_list(alloc, 32, "routers", bundle.routers)?;
    let devices = match counted_devices(alloc, bundle.devices) {
        Ok(devices) => devices,
        Err(fault) => return Err(fault),
    };
    match counted_list(alloc, 128, "links", bundle.links) {
        Ok(links) => Ok(CountedBundle {
            hosts,
            routers,
            devices,
            links,
            wire: bundle.wire,
        }),
        Err(fault) => Err(fault),
    }
}
