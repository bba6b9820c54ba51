//! Routes: each leads on towards its device.

ghost use Rattle.std.specs.Prelude.{◌≡◌, ◌≤◌, ◌<◌, length, option_map, vec_len};
ghost use Rattle.sb_flow.specs.Ways.{is_some_number, next_link as next_link_by, route_at, router_at_end as router_in};
ghost use Rattle.sb_flow.specs.Ends.{same_device};
ghost use Rattle.sb_flow.specs.Accepted.{is_other_device as is_other_by, is_stray as is_stray_by, leads_on as leads_on_by, lost_behind as lost_behind_by, stray_route as stray_route_by, stray_route_of};
ghost use Rattle.sb_flow.specs.Rows.{place_of};
ghost use Rattle.sb_topology.specs.Held.{route_of_stray, whole_network};

use crate::plan::Rows;
use crate::stray::Stray;
use sb_flow::Place;

/// A place is that router.
fn is_router(place: Place, router: u8) -> bool
    ensures { result ≡ is_some_number router (router_in (place_of place)) }
{
    match place {
        Place::Router(other) => other == router,
        Place::Host(_) | Place::Device(_) => false,
    }
}

/// A place is a device, but not that one.
fn is_other_device(place: Place, device: u8) -> bool
    ensures { result ≡ is_other_by device (place_of place) }
{
    match place {
        Place::Device(other) => other != device,
        Place::Host(_) | Place::Router(_) => false,
    }
}

/// The link that a router's route for a device gives.
pub fn route(rows: &Rows, router: u8, device: u8) -> Option<u8>
    requires { device < vec_len rows.now.devices }
    ensures { result ≡ route_at (whole_network rows.now) device router }
{
    let row = rows.routers.get(usize::from(router))?;
    row.routes[usize::from(device)]
}

/// A link leaves a router, and leads to no other device.
fn leads_on(rows: &Rows, router: u8, device: u8, link: u8) -> bool
    ensures { result ≡ leads_on_by (whole_network rows.now) router device link }
{
    match rows.links.get(usize::from(link)) {
        None => false,
        Some(row) => is_router(row.from, router) && !is_other_device(row.to, device),
    }
}

/// A router's route for a device, if it has one, doesn't lead on.
fn is_stray(rows: &Rows, router: u8, device: u8) -> bool
    requires { device < vec_len rows.now.devices }
    ensures { result ≡ is_stray_by (whole_network rows.now) router device }
{
    match route(rows, router, device) {
        None => false,
        Some(link) => !leads_on(rows, router, device, link),
    }
}

/// The first route of a router that doesn't.
#[tactic(auto, using(crate::proofs::Numbers::numbers_more))]
fn stray_of(rows: &Rows, router: u8) -> Option<Stray>
    ensures { option_map route_of_stray result ≡ stray_route_of (whole_network rows.now) router }
{
    for device in 0..rows.devices.len() {
        if is_stray(rows, router, device as u8) {
            return Some(Stray {
                router,
                device: device as u8,
            });
        }
    }
    None
}

/// The first route of all routers that doesn't.
#[tactic(auto, using(crate::proofs::Numbers::numbers_more))]
pub fn stray_route(rows: &Rows) -> Option<Stray>
    ensures { option_map route_of_stray result ≡ stray_route_by (whole_network rows.now) }
{
    for router in 0..rows.routers.len() {
        if let Some(stray) = stray_of(rows, router as u8) {
            return Some(stray);
        }
    }
    None
}
