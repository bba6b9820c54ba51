//! The links of a way, one after another.

ghost use Rattle.std.specs.Prelude.{◌≡◌, ◌<◌, ◌+◌, length, map, IfOk, IfSome};
ghost use Rattle.std.specs.List.{position_from};
ghost use Rattle.sb_packet.specs.Networks.{leaves_from};
ghost use Rattle.sb_flow.specs.Ways.{first_link as link_from_host, is_some_number, next_link as link_behind, route_at, router_at_end as router_in, way_links};
ghost use Rattle.sb_flow.specs.Rows.{link_of, place_of};
ghost use Rattle.sb_flow.specs.NetworkOf.{network_of};
ghost use Rattle.sb_flow.specs.Tables.{leg_of};

use crate::bundle::Bundle;
use crate::leg::Leg;
use crate::link_row::LinkRow;
use crate::place::Place;
use std::alloc::{AllocError, Global};

/// There is a number, and it is this one.
pub fn is_number(found: Option<u8>, n: u8) -> bool
    ensures { result ≡ is_some_number n found }
{
    match found {
        None => false,
        Some(k) => k == n,
    }
}

/// The router that an end of a link is, where it is one.
fn router_of(place: Place) -> Option<u8>
    ensures { result ≡ router_in (place_of place) }
{
    match place {
        Place::Router(router) => Some(router),
        Place::Host(_) | Place::Device(_) => None,
    }
}

/// A link with the routers that it joins.
fn leg(bundle: &Bundle, link: u8) -> Leg
    ensures { result ≡ leg_of (network_of bundle.now) link }
{
    match bundle.links.get(usize::from(link)) {
        None => Leg {
            link,
            from: None,
            to: None,
        },
        Some(row) => Leg {
            link,
            from: router_of(row.from),
            to: router_of(row.to),
        },
    }
}

/// The link that a router's route for a device gives.
fn route(bundle: &Bundle, router: u8, device: u8) -> Option<u8>
    requires { device < length bundle.now.devices.items }
    ensures { result ≡ route_at (network_of bundle.now) device router }
{
    let plan = bundle.routers.get(usize::from(router))?;
    plan.routes[usize::from(device)]
}

/// The link behind a leg on the way to a device.
fn next_link(bundle: &Bundle, leg: Leg, device: u8) -> Option<u8>
    requires known { leg ≡ leg_of (network_of bundle.now) leg.link }
    requires there { device < length bundle.now.devices.items }
    ensures { result ≡ link_behind (network_of bundle.now) device leg.link }
{
    match leg.to {
        None => None,
        Some(router) => route(bundle, router, device),
    }
}

/// A link leaves that host.
fn leaves(row: &LinkRow, host: u8) -> bool
    ensures { result ≡ leaves_from host (link_of row.now) }
{
    match row.from {
        Place::Host(k) => k == host,
        Place::Router(_) | Place::Device(_) => false,
    }
}

/// The first of some links that leaves a host.
fn first_leaving(links: &[LinkRow], host: u8) -> Option<usize>
    ensures place { result ≡ position_from (λ l. leaves_from host (link_of l)) 0 links.now }
    ensures there { IfSome result (λ place. place < length links.now) }
{
    links.iter().position(|row| leaves(row, host))
}

/// The link from a host.
#[tactic(auto, using(crate::proofs::Maps::position_of_map))]
fn first_link(bundle: &Bundle, host: u8) -> Option<u8>
    ensures { result ≡ link_from_host (network_of bundle.now) host }
{
    let place = first_leaving(&bundle.links, host)?;
    Some(place as u8)
}

/// The links of the way from a host to a device, the host's own first.
pub fn legs(alloc: Global, bundle: &Bundle, host: u8, device: u8) -> Result<Vec<Leg>, AllocError>
    requires { device < length bundle.now.devices.items }
    ensures { let network = network_of bundle.now in
        IfOk result (λ legs. legs.items ≡ map (leg_of network) (way_links network host device)) }
{
    let mut legs = Vec::new(alloc);
    let mut next = first_link(bundle, host);
    for _ in 0..bundle.routers.len() + 1 {
        let Some(link) = next else {
            return Ok(legs);
        };
        let leg = leg(bundle, link);
        legs.push(leg)?;
        next = next_link(bundle, leg, device);
    }
    Ok(legs)
}
