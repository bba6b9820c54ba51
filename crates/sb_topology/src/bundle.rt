//! A bundle from its text's fields.

ghost use Rattle.std.specs.Prelude.{◌≡◌, ◌≢◌, ◌≤◌, [], All, length, map, vec_len, IfOk, IfErr, Ok, Err};
ghost use Rattle.sb_flow.specs.Accepted.{IsAccepted};
ghost use Rattle.sb_flow.specs.NetworkOf.{network_of};
ghost use Rattle.sb_fields.specs.declared.fault.LoadFault.TheVariants as faults;
ghost use Rattle.sb_fields.specs.Counted.{counted_bundle};
ghost use Rattle.sb_fields.specs.Counts.{bundle_counts};
ghost use Rattle.sb_topology.specs.Held.{draft_host, plan_network, whole_network};
ghost use Rattle.sb_topology.specs.Lines.{hosts_by};
ghost use Rattle.sb_topology.specs.Bundles.{network_written};

use crate::device_tests::devices_tested;
use crate::drafts::named_draft;
use crate::link_tests::links_tested;
use crate::plan::{Plan, Rows};
use crate::script_tests::scripts_tested;
use crate::scripts::told_hosts;
use crate::widths::sized_plan;
use sb_fields::{CountedBundle, LoadFault};
use sb_flow::Bundle;
use std::alloc::Global;

/// A network with its scripts; `Script` is the one error but `Memory`.
fn told_rows(alloc: Global, plan: Plan<'_>) -> Result<Rows, LoadFault>
    ensures hosts { IfOk result (λ rows. hosts_by 0 [] (map draft_host plan.entry.hosts.items)
        ≡ Ok (whole_network rows).hosts) }
    ensures network { IfOk result (λ rows. whole_network rows
        ≡ record (plan_network plan.entry) { hosts = (whole_network rows).hosts }) }
    ensures devices { IfOk result (λ rows. rows.devices ≡ plan.entry.devices) }
    ensures scripts { IfOk result (λ rows. All (λ h. length h.script ≤ 65536) rows.hosts.items) }
    ensures err { IfErr result (λ fault. fault ≢ faults.Memory
        → (hosts_by 0 [] (map draft_host plan.entry.hosts.items) ≡ Err fault)) }
{
    match told_hosts(alloc, plan.hosts.as_slice()) {
        Ok(hosts) => Ok(Rows {
            hosts,
            routers: plan.routers,
            devices: plan.devices,
            links: plan.links,
            wire: plan.wire,
        }),
        Err(fault) => Err(fault),
    }
}

/// The rows of a bundle, if it has no fault.
fn tested_rows(alloc: Global, bundle: CountedBundle<'_>) -> Result<Rows, LoadFault>
    requires hosts { vec_len bundle.hosts ≤ 32 }
    requires routers { vec_len bundle.routers ≤ 32 }
    requires devices { vec_len bundle.devices ≤ 32 }
    requires links { vec_len bundle.links ≤ 128 }
    ensures ok { IfOk result (λ rows. network_written (counted_bundle bundle.entry) ≡ Ok (whole_network rows)) }
    ensures err { IfErr result (λ fault. fault ≢ faults.Memory
        → (network_written (counted_bundle bundle.entry) ≡ Err fault)) }
{
    let draft = named_draft(alloc, bundle)?;
    devices_tested(&draft)?;
    let plan = sized_plan(alloc, draft)?;
    links_tested(&plan)?;
    let rows = told_rows(alloc, plan)?;
    match scripts_tested(&rows) {
        Ok(()) => Ok(rows),
        Err(fault) => Err(fault),
    }
}

/// Rows without any fault, as a bundle.
fn bundle_of_rows(rows: Rows) -> Bundle
    requires { IsAccepted (whole_network rows) }
    ensures { network_of result ≡ whole_network rows }
{
    Bundle {
        hosts: rows.hosts,
        routers: rows.routers,
        devices: rows.devices,
        links: rows.links,
        wire: rows.wire,
    }
}

/// The bundle that some fields spell, or their first fault behind `Count`.
pub fn bundle(alloc: Global, written: CountedBundle<'_>) -> Result<Bundle, LoadFault>
    requires counts { bundle_counts (counted_bundle written) ≡ Ok tt }
    requires hosts { vec_len written.hosts ≤ 32 }
    requires routers { vec_len written.routers ≤ 32 }
    requires devices { vec_len written.devices ≤ 32 }
    requires links { vec_len written.links ≤ 128 }
    ensures ok { IfOk result (λ bundle. network_written (counted_bundle written.entry) ≡ Ok (network_of bundle)) }
    ensures err { IfErr result (λ fault. fault ≢ faults.Memory
        → (network_written (counted_bundle written.entry) ≡ Err fault)) }
{
    match tested_rows(alloc, written) {
        Ok(rows) => Ok(bundle_of_rows(rows)),
        Err(fault) => Err(fault),
    }
}
