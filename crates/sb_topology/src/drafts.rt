//! A bundle as a network, if all names are as they should be.

ghost use Rattle.std.specs.Prelude.{◌≡◌, ◌≢◌, ◌≤◌, map, vec_len, IfOk, IfErr, Ok, Err};
ghost use Rattle.sb_fields.specs.declared.fault.LoadFault.TheVariants as faults;
ghost use Rattle.sb_fields.specs.Counted.{counted_bundle, counted_host};
ghost use Rattle.sb_topology.specs.Held.{draft_host, draft_network};
ghost use Rattle.sb_topology.specs.Places.{named_network};

use crate::devices::device_plans;
use crate::hosts::host_drafts;
use crate::links::{link_drafts, wire_named};
use crate::named::given_names;
use crate::plan::Draft;
use crate::routers::router_plans;
use sb_fields::{CountedBundle, LoadFault};
use std::alloc::Global;

/// A bundle as a network; `Name` is the one error but `Memory`.
#[tactic(auto, unfolding(crate::specs::Places::named_network))]
pub fn named_draft(alloc: Global, bundle: CountedBundle<'_>) -> Result<Draft<'_>, LoadFault>
    requires hosts { vec_len bundle.hosts ≤ 32 }
    requires routers { vec_len bundle.routers ≤ 32 }
    requires devices { vec_len bundle.devices ≤ 32 }
    requires links { vec_len bundle.links ≤ 128 }
    ensures ok { IfOk result (λ draft. named_network (counted_bundle bundle.entry) ≡ Ok (draft_network draft)) }
    ensures hosts { IfOk result (λ draft. map draft_host draft.hosts.items
        ≡ map counted_host bundle.entry.hosts.items) }
    ensures err { IfErr result (λ fault. fault ≢ faults.Memory
        → (named_network (counted_bundle bundle.entry) ≡ Err fault)) }
{
    let names = match given_names(alloc, &bundle) {
        Ok(names) => names,
        Err(_) => return Err(LoadFault::Memory),
    };
    let mut earlier = Vec::new(alloc);
    let hosts = host_drafts(alloc, &mut earlier, bundle.hosts)?;
    let routers = router_plans(alloc, &names, &mut earlier, bundle.routers.as_slice())?;
    let devices = device_plans(alloc, &mut earlier, bundle.devices)?;
    let links = link_drafts(alloc, &names, bundle.links.as_slice())?;
    match wire_named(alloc, &names, bundle.wire) {
        Ok(wire) => Ok(Draft {
            hosts,
            routers,
            devices,
            links,
            wire,
        }),
        Err(fault) => Err(fault),
    }
}
