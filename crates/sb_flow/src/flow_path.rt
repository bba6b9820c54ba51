//! The way of one flow.

ghost use Rattle.std.specs.Prelude.{◌≡◌, ◌<◌, length, map, slice_index_or, IfOk};
ghost use Rattle.sb_flow.specs.Rows.{host_of};
ghost use Rattle.sb_flow.specs.NetworkOf.{network_of};
ghost use Rattle.sb_flow.specs.Tables.{aimed_links, flow_table_of, leg_of};
ghost use Rattle.sb_flow.specs.declared.host_plan.HostPlan.{HostPlan as AnyHost};

use crate::bundle::Bundle;
use crate::device_plan::DevicePlan;
use crate::host_plan::HostPlan;
use crate::leg::Leg;
use crate::marks::marks;
use crate::script_counts::{aims, answered_words, words};
use crate::walk::legs;
use std::alloc::{AllocError, Global};
use std::marker::Model;

/// The way between a host and a device, with the words that go over it.
#[derive(Drop)]
pub struct FlowPath {
    /// Its links, the host's own first; none where the host doesn't aim at the device.
    pub legs: Vec<Leg>,
    /// For each link of the bundle, whether it is among these.
    pub on: Vec<bool>,
    /// The words that the host asks of the device.
    pub words: u32,
    /// Those of them that are answered.
    pub answered: u32,
}

impl Model for FlowPath {
    ghost use Rattle.sb_flow.specs.Tables.{FlowTable};

    ghost Value = { FlowTable };

    ghost view = { λ f. record { legs = f.legs.items; on = f.on.items; words = f.words; answered = f.answered } };
}

/// The links from a host to a device, where the host aims at it.
fn aimed_legs(alloc: Global, bundle: &Bundle, host: u8, device: u8) -> Result<Vec<Leg>, AllocError>
    requires host { host < length bundle.now.hosts.items }
    requires device { device < length bundle.now.devices.items }
    ensures { (d : AnyHost) → let network = network_of bundle.now in
        let plan = host_of (slice_index_or bundle.now.hosts.items host d) in
        IfOk result (λ legs. legs.items ≡ map (leg_of network) (aimed_links network host plan device)) }
{
    let plan = &bundle.hosts[usize::from(host)];
    let row = &bundle.devices[usize::from(device)];
    if aims(plan.script.as_slice(), row) {
        legs(alloc, bundle, host, device)
    } else {
        Ok(Vec::new(alloc))
    }
}

/// The way from a host of a bundle to one of its devices.
pub fn flow_path(
    alloc: Global,
    bundle: &Bundle,
    host: u8,
    device: u8,
) -> Result<FlowPath, AllocError>
    requires host { host < length bundle.now.hosts.items }
    requires device { device < length bundle.now.devices.items }
    ensures { (d : AnyHost) → let plan = host_of (slice_index_or bundle.now.hosts.items host d) in
        IfOk result (λ path. path ≡ flow_table_of (network_of bundle.now) host plan device) }
{
    let plan = &bundle.hosts[usize::from(host)];
    let row = &bundle.devices[usize::from(device)];
    let legs = aimed_legs(alloc, bundle, host, device)?;
    let on = marks(alloc, bundle.links.len(), &legs)?;
    let script = plan.script.as_slice();
    Ok(FlowPath {
        legs,
        on,
        words: words(script, row),
        answered: answered_words(script, row),
    })
}
