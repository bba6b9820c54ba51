//! The devices of a bundle by their names.

ghost use Rattle.std.specs.Prelude.{◌≡◌, ◌≢◌, codes, map, vec_len, IfOk, IfErr, Ok, Err};
ghost use Rattle.sb_flow.specs.Rows.{device_of};
ghost use Rattle.sb_fields.specs.declared.fault.LoadFault.TheVariants as faults;
ghost use Rattle.sb_fields.specs.Counted.{counted_device};
ghost use Rattle.sb_topology.specs.Names.{names_by};
ghost use Rattle.sb_topology.specs.Places.{placed_device};

use crate::new_names::new_name;
use sb_fields::{CountedDevice, LoadFault};
use sb_flow::DevicePlan;
use sb_packet::{Bytes, Name};
use std::alloc::Global;

/// A device with a name.
fn device_plan(name: Name, device: CountedDevice<'_>) -> DevicePlan
    requires { name ≡ (counted_device device).name }
    ensures { device_of result ≡ placed_device (counted_device device.entry) }
{
    DevicePlan {
        name,
        base: device.base,
        pages: device.pages,
        readonly: device.readonly,
        image: Bytes::new(device.image),
    }
}

/// The devices of a bundle, whose names go behind earlier ones.
pub fn device_plans<'v>(
    alloc: Global,
    earlier: &mut Vec<&'v str>,
    devices: Vec<CountedDevice<'v>>,
) -> Result<Vec<DevicePlan>, LoadFault>
    ensures names { IfOk result (λ plans. names_by (codes "devices") 0 (map (λ n. n.now) earlier.old.items) (map
        (λ d. d.name) (map counted_device devices.entry.items)) ≡ Ok (map (λ n. n.now) earlier.new.items)) }
    ensures plans { IfOk result (λ plans. map device_of plans.items
        ≡ map placed_device (map counted_device devices.entry.items)) }
    ensures many { IfOk result (λ plans. vec_len plans ≡ vec_len devices.entry) }
    ensures err { IfErr result (λ fault. fault ≢ faults.Memory
        → (names_by (codes "devices") 0 (map (λ n. n.now) earlier.old.items) (map
        (λ d. d.name) (map counted_device devices.entry.items)) ≡ Err fault)) }
{
    let mut plans = Vec::new(alloc);
    for (number, device) in devices.into_iter().enumerate() {
        let text = device.name;
        let name = new_name(alloc, "devices", number, earlier.as_slice(), text)?;
        match earlier.push(text) {
            Ok(()) => {}
            Err(_) => return Err(LoadFault::Memory),
        }
        match plans.push(device_plan(name, device)) {
            Ok(()) => {}
            Err(_) => return Err(LoadFault::Memory),
        }
    }
    Ok(plans)
}
