//! The ways of one host.

ghost use Rattle.std.specs.Prelude.{◌≡◌, ◌<◌, ◌==◌, length, map, option_copied, slice_index_or, IfOk};
ghost use Rattle.std.specs.List.{enumerate_from, find};
ghost use Rattle.sb_flow.specs.Rows.{host_of};
ghost use Rattle.sb_flow.specs.NetworkOf.{network_of};
ghost use Rattle.sb_flow.specs.Tables.{host_table_of};
ghost use Rattle.sb_flow.specs.Gathered.{flows_from, legs_at};
ghost use Rattle.sb_flow.specs.declared.host_plan.HostPlan.{HostPlan as AnyHost};

use crate::bundle::Bundle;
use crate::flow_path::{FlowPath, flow_path};
use crate::leg::Leg;
use std::alloc::{AllocError, Global};
use std::marker::Model;

/// The ways from a host, one for each device.
#[derive(Drop)]
pub struct HostPaths {
    /// The host's id.
    pub id: u8,
    pub flows: Vec<FlowPath>,
}

impl Model for HostPaths {
    ghost use Rattle.sb_flow.specs.Tables.{HostTable};

    ghost Value = { HostTable };

    ghost view = { λ h. record { id = h.id; flows = h.flows.items } };
}

/// The first host with an id.
fn host_with(hosts: &[HostPaths], id: u8) -> Option<&HostPaths>
    ensures { option_copied result ≡ find (λ h. h.id == id) hosts.now }
{
    hosts.iter().find(|h| h.id == id)
}

/// The ways from the host with an id; none where no host has it.
pub fn flows_of(hosts: &[HostPaths], id: u8) -> &[FlowPath]
    ensures { result.now ≡ flows_from hosts.now id }
{
    match host_with(hosts, id) {
        None => &[],
        Some(paths) => paths.flows.as_slice(),
    }
}

/// The links of the way from the host with an id to a device; none where that is no flow.
pub fn legs_of(hosts: &[HostPaths], id: u8, device: u8) -> &[Leg]
    ensures { result.now ≡ legs_at hosts.now id device }
{
    match flows_of(hosts, id).get(usize::from(device)) {
        None => &[],
        Some(flow) => flow.legs.as_slice(),
    }
}

/// The ways from a host of a bundle.
fn host_paths(alloc: Global, bundle: &Bundle, host: u8) -> Result<HostPaths, AllocError>
    requires { host < length bundle.now.hosts.items }
    ensures { (d : AnyHost) → let plan = host_of (slice_index_or bundle.now.hosts.items host d) in
        IfOk result (λ paths. paths ≡ host_table_of (network_of bundle.now) host plan) }
{
    let mut flows = Vec::new(alloc);
    for device in 0..bundle.devices.len() {
        let flow = flow_path(alloc, bundle, host, device as u8)?;
        flows.push(flow)?;
    }
    let id = bundle.hosts[usize::from(host)].id;
    Ok(HostPaths { id, flows })
}

/// The ways from all hosts of a bundle.
pub fn all_paths(alloc: Global, bundle: &Bundle) -> Result<Vec<HostPaths>, AllocError>
    ensures { let network = network_of bundle.now in
        IfOk result (λ hosts. hosts.items ≡ map (λ p. host_table_of network p.0 p.1) (enumerate_from 0 network.hosts)) }
{
    let mut hosts = Vec::new(alloc);
    for host in 0..bundle.hosts.len() {
        let paths = host_paths(alloc, bundle, host as u8)?;
        hosts.push(paths)?;
    }
    Ok(hosts)
}
