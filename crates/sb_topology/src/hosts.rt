//! The hosts of a bundle by their names, before their scripts are read.

ghost use Rattle.std.specs.Prelude.{◌≡◌, ◌≢◌, codes, map, vec_len, IfOk, IfErr, Ok, Err};
ghost use Rattle.sb_fields.specs.declared.fault.LoadFault.TheVariants as faults;
ghost use Rattle.sb_fields.specs.Counted.{counted_host};
ghost use Rattle.sb_topology.specs.Names.{names_by};
ghost use Rattle.sb_topology.specs.Held.{draft_host};

use crate::host_draft::HostDraft;
use crate::new_names::new_name;
use sb_fields::{CountedHost, LoadFault};
use sb_packet::Name;
use std::alloc::Global;

/// A host with a name.
fn host_draft<'v>(name: Name, host: CountedHost<'v>) -> HostDraft<'v>
    requires { name ≡ (counted_host host).name }
    ensures { draft_host result ≡ counted_host host.entry }
{
    HostDraft {
        name,
        id: host.id,
        qos: host.qos,
        prot: host.prot,
        lines: host.script,
    }
}

/// The hosts of a bundle, whose names go behind earlier ones.
pub fn host_drafts<'v>(
    alloc: Global,
    earlier: &mut Vec<&'v str>,
    hosts: Vec<CountedHost<'v>>,
) -> Result<Vec<HostDraft<'v>>, LoadFault>
    ensures names { IfOk result (λ drafts. names_by (codes "hosts") 0 (map (λ n. n.now) earlier.old.items) (map
        (λ h. h.name) (map counted_host hosts.entry.items)) ≡ Ok (map (λ n. n.now) earlier.new.items)) }
    ensures drafts { IfOk result (λ drafts. map draft_host drafts.items ≡ map counted_host hosts.entry.items) }
    ensures many { IfOk result (λ drafts. vec_len drafts ≡ vec_len hosts.entry) }
    ensures err { IfErr result (λ fault. fault ≢ faults.Memory
        → (names_by (codes "hosts") 0 (map (λ n. n.now) earlier.old.items) (map
        (λ h. h.name) (map counted_host hosts.entry.items)) ≡ Err fault)) }
{
    let mut drafts = Vec::new(alloc);
    for (number, host) in hosts.into_iter().enumerate() {
        let text = host.name;
        let name = new_name(alloc, "hosts", number, earlier.as_slice(), text)?;
        match earlier.push(text) {
            Ok(()) => {}
            Err(_) => return Err(LoadFault::Memory),
        }
        match drafts.push(host_draft(name, host)) {
            Ok(()) => {}
            Err(_) => return Err(LoadFault::Memory),
        }
    }
    Ok(drafts)
}
