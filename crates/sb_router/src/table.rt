//! The table that says where each flow goes.

ghost use Rattle.std.specs.Prelude.{◌≡◌, ◌<◌, ◌==◌, ℕ, None, Some, length, slice_index_or, vec_len, IfOk, IfSome};
ghost use Rattle.sb_link.specs.RingPlans.{NetFlow};
ghost use Rattle.sb_flow.specs.NetworkOf.{network_of};
ghost use Rattle.sb_flow.specs.Tables.{paths_of};
ghost use Rattle.sb_router.specs.Ways.{IsTableOf, link_on, place_of_link, place_on, route_of};

use crate::routes::Routes;
use sb_flow::{Bundle, Paths};
use std::alloc::{AllocError, Global};

// hosts' ids, and places of devices
const FLOW_COUNT: u8 = 32;

// the link by which a flow leaves a router: towards its host, or towards its device
fn link_on(bundle: &Bundle, paths: &Paths, up: bool, router: u8, host: u8, device: u8) -> Option<u8>
    requires made { paths.now ≡ paths_of (network_of bundle.now) }
    ensures link { result ≡ link_on (network_of bundle.now) up router (record { host = host; device = device }) }
{
    let _ = bundle;
    if up {
        paths.up(router, host, device)
    } else {
        paths.down(router, host, device)
    }
}

// the place of a link among these
fn place_of(links: &[u8], link: u8) -> Option<usize>
    ensures place { result ≡ place_of_link links.now link }
    ensures within { IfSome result (λ place. place < length links.now) }
{
    links.iter().position(|other| *other == link)
}

// the place to which a flow goes
fn place_on(
    bundle: &Bundle,
    paths: &Paths,
    up: bool,
    router: u8,
    links: &[u8],
    host: u8,
    device: u8,
) -> Option<usize>
    requires made { paths.now ≡ paths_of (network_of bundle.now) }
    ensures place { result ≡ place_on (network_of bundle.now) up router links.now (record { host = host; device = device }) }
    ensures within { IfSome result (λ place. place < length links.now) }
{
    let link = link_on(bundle, paths, up, router, host, device)?;
    place_of(links, link)
}

// the row of a host
fn row(
    bundle: &Bundle,
    paths: &Paths,
    up: bool,
    router: u8,
    links: &[u8],
    host: u8,
) -> [Option<usize>; 32]
    requires made { paths.now ≡ paths_of (network_of bundle.now) }
    ensures places { (device : ℕ) → device < 32 → slice_index_or result device None
        ≡ place_on (network_of bundle.now) up router links.now (record { host = host; device = device }) }
    ensures within { (device o : ℕ) → slice_index_or result device None ≡ Some o → o < length links.now }
{
    let mut row = [None; 32];
    for device in 0..FLOW_COUNT {
        row[usize::from(device)] = place_on(bundle, paths, up, router, links, host, device);
    }
    row
}

/// Where the flows of a router go, in one direction: to the places of these links.
///
/// # Errors
///
/// `AllocError` where there isn't enough memory.
pub fn routes(
    alloc: Global,
    bundle: &Bundle,
    paths: &Paths,
    up: bool,
    router: u8,
    links: &[u8],
) -> Result<Routes, AllocError>
    requires made { paths.now ≡ paths_of (network_of bundle.now) }
    ensures table { IfOk result (λ routes. IsTableOf (network_of bundle.now) up router links.now routes.rows.items) }
    ensures within { IfOk result (λ routes. (f : NetFlow) (o : ℕ) → route_of routes.rows.items f ≡ Some o → o < length links.now) }
{
    let mut rows = Vec::new(alloc);
    for host in 0..FLOW_COUNT {
        rows.push(row(bundle, paths, up, router, links, host))?;
    }
    Ok(Routes { rows })
}
