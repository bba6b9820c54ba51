//! The links of a bundle by their names, between places that are there.

ghost use Rattle.std.specs.Prelude.{◌≡◌, ◌≢◌, ◌≤◌, [], codes, length, map, option_map, vec_len, IfOk, IfErr, Ok, Err};
ghost use Rattle.sb_flow.specs.Rows.{place_of as place_in};
ghost use Rattle.sb_fields.specs.declared.fault.LoadFault.TheVariants as faults;
ghost use Rattle.sb_fields.specs.Paths.{item_of};
ghost use Rattle.sb_fields.specs.Counted.{counted_link};
ghost use Rattle.sb_topology.specs.Names.{end_named as end_named_by, link_named as link_named_by, links_by, place_named as place_named_by, wire_named as wire_named_by};
ghost use Rattle.sb_topology.specs.Held.{draft_link, given_names};

use crate::link_draft::LinkDraft;
use crate::name_lists::NameLists;
use crate::new_names::{item_name_fault, new_name, place_among};
use sb_fields::{CountedLink, LoadFault, name_fault};
use sb_flow::Place;
use std::alloc::Global;

/// The host, router or device of a name.
#[tactic(auto, unfolding(crate::specs::Names::place_named))]
fn place_named(names: &NameLists<'_>, name: &str) -> Option<Place>
    requires hosts { vec_len names.now.hosts ≤ 32 }
    requires routers { vec_len names.now.routers ≤ 32 }
    requires devices { vec_len names.now.devices ≤ 32 }
    ensures { option_map place_in result ≡ place_named_by (given_names names.now) name.now }
{
    if let Some(host) = place_among(names.hosts.as_slice(), name) {
        return Some(Place::Host(host as u8));
    }
    if let Some(router) = place_among(names.routers.as_slice(), name) {
        return Some(Place::Router(router as u8));
    }
    match place_among(names.devices.as_slice(), name) {
        Some(device) => Some(Place::Device(device as u8)),
        None => None,
    }
}

/// An end of a link.
#[tactic(auto, unfolding(crate::specs::Names::end_named))]
fn end_named(
    alloc: Global,
    names: &NameLists<'_>,
    number: usize,
    field: &str,
    name: &str,
) -> Result<Place, LoadFault>
    requires hosts { vec_len names.now.hosts ≤ 32 }
    requires routers { vec_len names.now.routers ≤ 32 }
    requires devices { vec_len names.now.devices ≤ 32 }
    ensures ok { IfOk result (λ place.
        end_named_by (given_names names.now) (item_of (codes "links") number) field.now name.now ≡ Ok (place_in place)) }
    ensures err { IfErr result (λ fault. fault ≢ faults.Memory
        → (end_named_by (given_names names.now) (item_of (codes "links") number) field.now name.now ≡ Err fault)) }
{
    match place_named(names, name) {
        Some(place) => Ok(place),
        None => Err(item_name_fault(alloc, "links", number, field)),
    }
}

/// A link behind earlier ones, of these names.
#[tactic(auto, unfolding(crate::specs::Names::link_named))]
fn link_draft(
    alloc: Global,
    names: &NameLists<'_>,
    number: usize,
    earlier: &[&str],
    drafts: &[LinkDraft],
    link: &CountedLink<'_>,
) -> Result<LinkDraft, LoadFault>
    requires hosts { vec_len names.now.hosts ≤ 32 }
    requires routers { vec_len names.now.routers ≤ 32 }
    requires devices { vec_len names.now.devices ≤ 32 }
    requires earlier { map (λ n. n.now) earlier.now ≡ map (λ l. l.name) (map draft_link drafts.now) }
    ensures ok { IfOk result (λ draft.
        link_named_by (given_names names.now) number (map draft_link drafts.now) (counted_link link.now) ≡ Ok (draft_link draft)) }
    ensures name { IfOk result (λ draft. draft.name ≡ (counted_link link.now).name) }
    ensures err { IfErr result (λ fault. fault ≢ faults.Memory
        → (link_named_by (given_names names.now) number (map draft_link drafts.now) (counted_link link.now)
        ≡ Err fault)) }
{
    let name = new_name(alloc, "links", number, earlier, link.name)?;
    let from = end_named(alloc, names, number, "from", link.from)?;
    match end_named(alloc, names, number, "to", link.to) {
        Ok(to) => Ok(LinkDraft {
            name,
            from,
            to,
            width: link.width,
            capacity: link.capacity,
        }),
        Err(fault) => Err(fault),
    }
}

/// The links of a bundle.
pub fn link_drafts(
    alloc: Global,
    names: &NameLists<'_>,
    links: &[CountedLink<'_>],
) -> Result<Vec<LinkDraft>, LoadFault>
    requires hosts { vec_len names.now.hosts ≤ 32 }
    requires routers { vec_len names.now.routers ≤ 32 }
    requires devices { vec_len names.now.devices ≤ 32 }
    ensures ok { IfOk result (λ drafts. links_by (given_names names.now) 0 [] (map counted_link links.now)
        ≡ Ok (map draft_link drafts.items)) }
    ensures many { IfOk result (λ drafts. vec_len drafts ≡ length links.now) }
    ensures err { IfErr result (λ fault. fault ≢ faults.Memory
        → (links_by (given_names names.now) 0 [] (map counted_link links.now) ≡ Err fault)) }
{
    let mut earlier = Vec::new(alloc);
    let mut drafts = Vec::new(alloc);
    for (number, link) in links.iter().enumerate() {
        let draft = link_draft(
            alloc,
            names,
            number,
            earlier.as_slice(),
            drafts.as_slice(),
            link,
        )?;
        match earlier.push(link.name) {
            Ok(()) => {}
            Err(_) => return Err(LoadFault::Memory),
        }
        match drafts.push(draft) {
            Ok(()) => {}
            Err(_) => return Err(LoadFault::Memory),
        }
    }
    Ok(drafts)
}

/// The wire, where a link is named as the one.
#[tactic(auto, unfolding(crate::specs::Names::wire_named))]
pub fn wire_named(
    alloc: Global,
    names: &NameLists<'_>,
    wire: Option<&str>,
) -> Result<Option<u8>, LoadFault>
    requires { vec_len names.now.links ≤ 128 }
    ensures ok { IfOk result (λ link. wire_named_by (given_names names.now) (option_map (λ n. n.now) wire.entry)
        ≡ Ok link) }
    ensures err { IfErr result (λ fault. fault ≢ faults.Memory
        → (wire_named_by (given_names names.now) (option_map (λ n. n.now) wire.entry) ≡ Err fault)) }
{
    let Some(name) = wire else {
        return Ok(None);
    };
    match place_among(names.links.as_slice(), name) {
        Some(link) => Ok(Some(link as u8)),
        None => Err(name_fault(alloc, "", "wire")),
    }
}
