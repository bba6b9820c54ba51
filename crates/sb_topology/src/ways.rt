//! Ways: none is without a route where a host aims.

ghost use Rattle.std.specs.Prelude.{◌≡◌, ◌<◌, IfSome, None, length, map, option_map, vec_len};
ghost use Rattle.std.specs.List.{enumerate_from, list_any, position_from};
ghost use Rattle.sb_packet.specs.Networks.{has_address, leaves_from};
ghost use Rattle.sb_flow.specs.Ways.{aims_at, first_link as first_link_by, next_link as next_link_by, router_after as router_after_by};
ghost use Rattle.sb_flow.specs.Accepted.{first_told, lost_behind as lost_behind_by, lost_flow as lost_flow_by, lost_of_host as lost_of_host_by, lost_on_way as lost_on_way_by, overlapping_device};
ghost use Rattle.sb_flow.specs.Rows.{device_of, host_of, link_of};
ghost use Rattle.sb_topology.specs.Held.{route_of_stray, whole_network};

use crate::plan::Rows;
use crate::routes::route;
use crate::stray::Stray;
use sb_flow::{DevicePlan, HostPlan, LinkRow, Place};
use sb_packet::Txn;

/// The router that a link leads to, where it leads to one.
fn router_after(rows: &Rows, link: u8) -> Option<u8>
    ensures { result ≡ router_after_by (whole_network rows.now) link }
{
    match rows.links.get(usize::from(link))?.to {
        Place::Router(router) => Some(router),
        Place::Host(_) | Place::Device(_) => None,
    }
}

/// The router behind a link, where it has no route for a device.
fn lost_behind(rows: &Rows, device: u8, link: u8) -> Option<Stray>
    requires { device < vec_len rows.now.devices }
    ensures { option_map route_of_stray result ≡ lost_behind_by (whole_network rows.now) device link }
{
    let router = router_after(rows, link)?;
    match route(rows, router, device) {
        None => Some(Stray { router, device }),
        Some(_next) => None,
    }
}

/// The link behind a link on the way to a device.
fn next_link(rows: &Rows, device: u8, link: u8) -> Option<u8>
    requires { device < vec_len rows.now.devices }
    ensures { result ≡ next_link_by (whole_network rows.now) device link }
{
    match router_after(rows, link) {
        None => None,
        Some(router) => route(rows, router, device),
    }
}

/// The link from a host.
fn first_link(rows: &Rows, host: u8) -> Option<u8>
    ensures { result ≡ first_link_by (whole_network rows.now) host }
{
    let place = first_leaving(rows.links.as_slice(), host)?;
    Some(place as u8)
}

/// The first of some links that leaves a host.
fn first_leaving(links: &[LinkRow], host: u8) -> Option<usize>
    ensures place { result ≡ position_from (leaves_from host) 0 (map link_of links.now) }
    ensures there { IfSome result (λ place. place < length links.now) }
{
    for (place, link) in links.iter().enumerate() {
        let leaves = match link.from {
            Place::Host(other) => other == host,
            Place::Router(_) | Place::Device(_) => false,
        };
        if leaves {
            return Some(place);
        }
    }
    None
}

/// The first router without a route on the way from a host to a device.
#[tactic(auto, using(crate::proofs::LostWays::way_more, crate::proofs::LostWays::way_ends, crate::proofs::LostWays::way_over))]
fn lost_on_way(rows: &Rows, host: u8, device: u8) -> Option<Stray>
    requires device { device < vec_len rows.now.devices }
    ensures { option_map route_of_stray result ≡ lost_on_way_by (whole_network rows.now) host device }
{
    let mut next = first_link(rows, host);
    for _ in 0..rows.routers.len() + 1 {
        let Some(link) = next else {
            return None;
        };
        if let Some(stray) = lost_behind(rows, device, link) {
            return Some(stray);
        }
        next = next_link(rows, device, link);
    }
    None
}

/// Some transaction's address lies in a device's range.
fn aims(script: &[Txn], device: &DevicePlan) -> bool
    ensures { result ≡ list_any (λ t. has_address t.addr (device_of device.now)) script.now }
{
    let end = device.base as u128 + device.pages as u128 * 4096;
    for txn in script {
        if device.base <= txn.addr && (txn.addr as u128) < end {
            return true;
        }
    }
    false
}

/// The first router without a route on the ways from a host to the devices that it aims at.
#[tactic(auto, using(crate::proofs::LostWays::aims_more, crate::proofs::LostWays::aimed_here))]
fn lost_of_host(rows: &Rows, host: u8, plan: &HostPlan) -> Option<Stray>
    requires apart { overlapping_device (whole_network rows.now) ≡ None }
    ensures { option_map route_of_stray result ≡ lost_of_host_by (whole_network rows.now) host (host_of plan.now) }
{
    for device in 0..rows.devices.len() {
        if aims(plan.script.as_slice(), &rows.devices[device]) {
            if let Some(stray) = lost_on_way(rows, host, device as u8) {
                return Some(stray);
            }
        }
    }
    None
}

/// The first router without a route on the ways of all hosts.
pub fn lost_flow(rows: &Rows) -> Option<Stray>
    requires apart { overlapping_device (whole_network rows.now) ≡ None }
    ensures { option_map route_of_stray result ≡ lost_flow_by (whole_network rows.now) }
{
    for (number, host) in rows.hosts.iter().enumerate() {
        if let Some(stray) = lost_of_host(rows, number as u8, host) {
            return Some(stray);
        }
    }
    None
}
