//! What links join.

ghost use Rattle.std.specs.Prelude.{◌≡◌, ◌≢◌, ◌≤◌, ◌<◌, length, map, not, option_map, vec_len, IfOk, IfErr, IfSome, Ok, Err};
ghost use Rattle.std.specs.List.{find, list_any, position_from, range_with_len};
ghost use Rattle.sb_packet.specs.Networks.{at_router, leads_to, leaves_from, side_at};
ghost use Rattle.sb_flow.specs.Ways.{is_some_number};
ghost use Rattle.sb_flow.specs.Ends.{goes_back as goes_back_by, is_fit_link, joins as joins_by, keeps_sides as keeps_sides_by, same_device, same_host, share_an_end as share_an_end_by, unfit_link, unlinked_place as unlinked_place_by};
ghost use Rattle.sb_flow.specs.Rows.{link_of, place_of};
ghost use Rattle.sb_fields.specs.declared.fault.LoadFault.TheVariants as faults;
ghost use Rattle.sb_topology.specs.Held.{plan_network};
ghost use Rattle.sb_topology.specs.Tests.{links_tested as links_tested_by};

use crate::plan::Plan;
use sb_fields::LoadFault;
use sb_flow::{LinkRow, Place};

/// A link may go from one place to another.
fn joins(from: Place, to: Place) -> bool
    ensures { result ≡ joins_by (place_of from) (place_of to) }
{
    match (from, to) {
        (Place::Host(_), Place::Router(_)) => true,
        (Place::Router(_), Place::Router(_) | Place::Device(_)) => true,
        (Place::Host(_), Place::Host(_) | Place::Device(_)) => false,
        (Place::Router(_), Place::Host(_)) => false,
        (Place::Device(_), Place::Host(_) | Place::Router(_) | Place::Device(_)) => false,
    }
}

/// The side of a router; 0 where there is no such router.
fn side_of(plan: &Plan<'_>, router: u8) -> u8
    ensures { result ≡ side_at (plan_network plan.now) (at_router router) }
{
    match plan.routers.get(usize::from(router)) {
        Some(row) => row.side,
        None => 0,
    }
}

/// The wire goes from side 0 to side 1, and no other link joins routers of different sides.
fn keeps_sides(plan: &Plan<'_>, is_wire: bool, from: Place, to: Place) -> bool
    ensures { result ≡ keeps_sides_by (plan_network plan.now) is_wire (place_of from) (place_of to) }
{
    let (Place::Router(first), Place::Router(second)) = (from, to) else {
        return !is_wire;
    };
    let from_side = side_of(plan, first);
    let to_side = side_of(plan, second);
    if is_wire {
        from_side == 0 && to_side == 1
    } else {
        from_side == to_side
    }
}

/// Two links leave one host.
fn share_a_host(from: Place, other: Place) -> bool
    ensures { result ≡ same_host (place_of from) (place_of other) }
{
    match (from, other) {
        (Place::Host(host), Place::Host(same)) => host == same,
        (Place::Host(_), Place::Router(_) | Place::Device(_)) => false,
        (Place::Router(_) | Place::Device(_), _) => false,
    }
}

/// Two links lead to one device.
fn share_a_device(to: Place, other: Place) -> bool
    ensures { result ≡ same_device (place_of to) (place_of other) }
{
    match (to, other) {
        (Place::Device(device), Place::Device(same)) => device == same,
        (Place::Device(_), Place::Host(_) | Place::Router(_)) => false,
        (Place::Host(_) | Place::Router(_), _) => false,
    }
}

/// Two links leave one host, or lead to one device.
fn share_an_end(link: &LinkRow, other: &LinkRow) -> bool
    ensures { result ≡ share_an_end_by (link_of link.now) (link_of other.now) }
{
    share_a_host(link.from, other.from) || share_a_device(link.to, other.to)
}

/// Some link shares an end with a link.
fn is_shared(earlier: &[LinkRow], link: &LinkRow) -> bool
    ensures { result ≡ list_any (share_an_end_by (link_of link.now)) (map link_of earlier.now) }
{
    for other in earlier {
        if share_an_end(link, other) {
            return true;
        }
    }
    false
}

/// There is a wire, and it is this link.
fn is_wire(plan: &Plan<'_>, link: u8) -> bool
    ensures { result ≡ is_some_number link plan.now.wire }
{
    match plan.wire {
        Some(wire) => wire == link,
        None => false,
    }
}

/// A link behind earlier ones is as it may be.
fn is_fit(plan: &Plan<'_>, earlier: &[LinkRow], link: &LinkRow) -> bool
    requires { length earlier.now < 256 }
    ensures { result ≡ is_fit_link (plan_network plan.now) (map link_of earlier.now) (length earlier.now) (link_of link.now) }
{
    joins(link.from, link.to)
        && !is_shared(earlier, link)
        && keeps_sides(plan, is_wire(plan, earlier.len() as u8), link.from, link.to)
}

/// The first link that isn't.
fn unfit(plan: &Plan<'_>) -> Option<usize>
    ensures place { result ≡ unfit_link (plan_network plan.now) }
    ensures there { IfSome result (λ place. place < vec_len plan.now.links) }
{
    let links = plan.links.as_slice();
    for place in 0..links.len() {
        if !is_fit(plan, &links[..place], &links[place]) {
            return Some(place);
        }
    }
    None
}

/// A link goes from a router to itself or to an earlier one.
fn goes_back(link: &LinkRow) -> bool
    ensures { result ≡ goes_back_by (place_of link.now.from) (place_of link.now.to) }
{
    match (link.from, link.to) {
        (Place::Router(from), Place::Router(to)) => to <= from,
        (Place::Router(_), Place::Host(_) | Place::Device(_)) => false,
        (Place::Host(_) | Place::Device(_), _) => false,
    }
}

/// The first link that does.
fn backward(links: &[LinkRow]) -> Option<usize>
    ensures place { result ≡ position_from (λ l. goes_back_by l.from l.to) 0 (map link_of links.now) }
    ensures there { IfSome result (λ place. place < length links.now) }
{
    for (place, link) in links.iter().enumerate() {
        if goes_back(link) {
            return Some(place);
        }
    }
    None
}

/// Some link leaves a host.
fn is_left(links: &[LinkRow], host: u8) -> bool
    ensures { result ≡ list_any (leaves_from host) (map link_of links.now) }
{
    for link in links {
        let leaves = match link.from {
            Place::Host(other) => other == host,
            Place::Router(_) | Place::Device(_) => false,
        };
        if leaves {
            return true;
        }
    }
    false
}

/// Some link leads to a device.
fn is_reached(links: &[LinkRow], device: u8) -> bool
    ensures { result ≡ list_any (leads_to device) (map link_of links.now) }
{
    for link in links {
        let leads = match link.to {
            Place::Device(other) => other == device,
            Place::Host(_) | Place::Router(_) => false,
        };
        if leads {
            return true;
        }
    }
    false
}

/// The first of some hosts that no link leaves.
#[tactic(auto, using(crate::proofs::Numbers::numbers_more))]
fn unlinked_host(links: &[LinkRow], hosts: usize) -> Option<u8>
    requires { hosts ≤ 32 }
    ensures { result ≡ find (λ h. not (list_any (leaves_from h) (map link_of links.now))) (range_with_len 0 hosts) }
{
    for host in 0..hosts {
        if !is_left(links, host as u8) {
            return Some(host as u8);
        }
    }
    None
}

/// The first of some devices that no link leads to.
#[tactic(auto, using(crate::proofs::Numbers::numbers_more))]
fn unlinked_device(links: &[LinkRow], devices: usize) -> Option<u8>
    requires { devices ≤ 32 }
    ensures { result ≡ find (λ d. not (list_any (leads_to d) (map link_of links.now))) (range_with_len 0 devices) }
{
    for device in 0..devices {
        if !is_reached(links, device as u8) {
            return Some(device as u8);
        }
    }
    None
}

/// The first host that no link leaves, or else the first device that no link leads to.
#[tactic(auto, using(crate::proofs::Numbers::length_once, crate::proofs::Numbers::length_twice))]
fn unlinked_place(plan: &Plan<'_>) -> Option<Place>
    ensures { option_map place_of result ≡ unlinked_place_by (plan_network plan.now) }
{
    if let Some(host) = unlinked_host(plan.links.as_slice(), plan.hosts.len()) {
        return Some(Place::Host(host));
    }
    match unlinked_device(plan.links.as_slice(), plan.devices.len()) {
        Some(device) => Some(Place::Device(device)),
        None => None,
    }
}

/// What links join: the first fault of these.
#[tactic(auto, unfolding(crate::specs::Tests::unless_found, crate::specs::Tests::links_tested), using(crate::proofs::NamedParts::place_there))]
pub fn links_tested(plan: &Plan<'_>) -> Result<(), LoadFault>
    ensures { result ≡ links_tested_by (plan_network plan.now) }
{
    if let Some(link) = unfit(plan) {
        return Err(LoadFault::End { link: link as u8 });
    }
    if let Some(link) = backward(plan.links.as_slice()) {
        return Err(LoadFault::Backward { link: link as u8 });
    }
    match unlinked_place(plan) {
        Some(place) => Err(LoadFault::Unlinked { place }),
        None => Ok(()),
    }
}
