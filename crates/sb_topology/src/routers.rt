//! The routers of a bundle by their names, with their routes by the places of devices and links.

ghost use Rattle.std.specs.Prelude.{◌≡◌, ◌≢◌, ◌≤◌, bytes_eq, length, map, option_map, string_bytes, take, vec_len, IfOk, IfErr, Ok, Err};
ghost use Rattle.std.specs.List.{find};
ghost use Rattle.sb_flow.specs.Rows.{net_router_of};
ghost use Rattle.sb_fields.specs.declared.fault.LoadFault.TheVariants as faults;
ghost use Rattle.sb_fields.specs.Paths.{member_of};
ghost use Rattle.sb_fields.specs.Counted.{counted_router};
ghost use Rattle.sb_fields.specs.Held.{written_route};
ghost use Rattle.sb_topology.specs.Names.{route_named as route_named_by, router_named as router_named_by, routers_by, routes_named as routes_named_by, routes_path as routes_path_by};
ghost use Rattle.sb_topology.specs.Held.{given_names};
ghost use Rattle.sb_topology.specs.Places.{placed_router, route_to as route_to_by};

use crate::name_lists::NameLists;
use crate::new_names::{is_among, new_name, place_among};
use sb_fields::{CountedRouter, LoadFault, RouteText, item_path, member_path, name_fault};
use sb_flow::RouterPlan;
use sb_packet::Name;
use std::alloc::{AllocError, Global};

/// The path of the routes of a router.
fn routes_path(alloc: Global, number: usize) -> Result<String, AllocError>
    ensures { IfOk result (λ path. string_bytes path ≡ routes_path_by number) }
{
    let router = item_path(alloc, "routers", number)?;
    member_path(alloc, router.as_str(), "routes")
}

/// `Name` at a route of a router, or want of memory.
fn route_fault(alloc: Global, number: usize, device: &str) -> LoadFault
    ensures { result ≢ faults.Memory → (result ≡ faults.Name (member_of (routes_path_by number) device.now)) }
{
    match routes_path(alloc, number) {
        Ok(path) => name_fault(alloc, path.as_str(), device),
        Err(_) => LoadFault::Memory,
    }
}

/// A route of a router goes from a device to a link that is there.
#[tactic(auto, unfolding(crate::specs::Names::route_named))]
fn route_named(
    alloc: Global,
    names: &NameLists<'_>,
    number: usize,
    route: &RouteText<'_>,
) -> Result<(), LoadFault>
    ensures ok { IfOk result (λ done. route_named_by (given_names names.now) (routes_path_by number) (written_route route.now) ≡ Ok done) }
    ensures err { IfErr result (λ fault. fault ≢ faults.Memory
        → (route_named_by (given_names names.now) (routes_path_by number) (written_route route.now) ≡ Err fault)) }
{
    if is_among(names.devices.as_slice(), route.device)
        && is_among(names.links.as_slice(), route.link)
    {
        Ok(())
    } else {
        Err(route_fault(alloc, number, route.device))
    }
}

/// So do some routes of a router.
#[tactic(auto, unfolding(crate::specs::Names::routes_named))]
fn routes_named(
    alloc: Global,
    names: &NameLists<'_>,
    number: usize,
    routes: &[RouteText<'_>],
) -> Result<(), LoadFault>
    ensures ok { IfOk result (λ done.
        routes_named_by (given_names names.now) (routes_path_by number) (map written_route routes.now) ≡ Ok done) }
    ensures err { IfErr result (λ fault. fault ≢ faults.Memory
        → (routes_named_by (given_names names.now) (routes_path_by number) (map written_route routes.now)
        ≡ Err fault)) }
{
    for route in routes {
        if let Err(fault) = route_named(alloc, names, number, route) {
            return Err(fault);
        }
    }
    Ok(())
}

/// The name of a router, if it and the router's routes are as they should be.
#[tactic(auto, unfolding(crate::specs::Names::router_named))]
fn router_named(
    alloc: Global,
    names: &NameLists<'_>,
    number: usize,
    earlier: &[&str],
    router: &CountedRouter<'_>,
) -> Result<Name, LoadFault>
    ensures ok { IfOk result (λ name. router_named_by (given_names names.now) number (map
        (λ n. n.now) earlier.now) (counted_router router.now) ≡ Ok tt) }
    ensures name { IfOk result (λ name. name ≡ (counted_router router.now).name) }
    ensures err { IfErr result (λ fault. fault ≢ faults.Memory
        → (router_named_by (given_names names.now) number (map (λ n. n.now) earlier.now) (counted_router router.now)
        ≡ Err fault)) }
{
    let name = new_name(alloc, "routers", number, earlier, router.name)?;
    match routes_named(alloc, names, number, router.routes.as_slice()) {
        Ok(()) => Ok(name),
        Err(fault) => Err(fault),
    }
}

/// The first of some routes that goes from a device.
fn route_from<'v>(routes: &[RouteText<'v>], device: &str) -> Option<RouteText<'v>>
    ensures { option_map written_route result ≡ find
        (λ route. bytes_eq device.now route.device) (map written_route routes.now) }
{
    for route in routes {
        if device == route.device {
            return Some(*route);
        }
    }
    None
}

/// The place of the link to which a route goes from a device.
#[tactic(auto, unfolding(crate::specs::Places::route_to))]
fn route_to(names: &NameLists<'_>, routes: &[RouteText<'_>], device: &str) -> Option<u8>
    requires { vec_len names.now.links ≤ 128 }
    ensures { result ≡ route_to_by (given_names names.now) (map written_route routes.now) device.now }
{
    let route = route_from(routes, device)?;
    match place_among(names.links.as_slice(), route.link) {
        Some(link) => Some(link as u8),
        None => None,
    }
}

/// A router's routes, one place for each device.
fn route_places(names: &NameLists<'_>, routes: &[RouteText<'_>]) -> [Option<u8>; 32]
    requires links { vec_len names.now.links ≤ 128 }
    requires devices { vec_len names.now.devices ≤ 32 }
    ensures whole { length result ≡ 32 }
    ensures routes { take (vec_len names.now.devices) result
        ≡ map (route_to_by (given_names names.now) (map written_route routes.now)) (given_names names.now).devices }
{
    let mut places = [None; 32];
    for (device, name) in names.devices.iter().enumerate() {
        places[device] = route_to(names, routes, name);
    }
    places
}

/// A router with a name.
fn router_plan(names: &NameLists<'_>, name: Name, router: &CountedRouter<'_>) -> RouterPlan
    requires name { name ≡ (counted_router router.now).name }
    requires links { vec_len names.now.links ≤ 128 }
    requires devices { vec_len names.now.devices ≤ 32 }
    ensures { net_router_of (vec_len names.now.devices) result
        ≡ placed_router (given_names names.now) (counted_router router.now) }
{
    RouterPlan {
        name,
        side: router.side,
        routes: route_places(names, router.routes.as_slice()),
    }
}

/// The routers of a bundle, whose names go behind earlier ones.
pub fn router_plans<'v>(
    alloc: Global,
    names: &NameLists<'v>,
    earlier: &mut Vec<&'v str>,
    routers: &[CountedRouter<'v>],
) -> Result<Vec<RouterPlan>, LoadFault>
    requires links { vec_len names.now.links ≤ 128 }
    requires devices { vec_len names.now.devices ≤ 32 }
    ensures names { IfOk result (λ plans. routers_by (given_names names.now) 0 (map
        (λ n. n.now) earlier.old.items) (map counted_router routers.now) ≡ Ok (map (λ n. n.now) earlier.new.items)) }
    ensures plans { IfOk result (λ plans. map (net_router_of (vec_len names.now.devices)) plans.items
        ≡ map (placed_router (given_names names.now)) (map counted_router routers.now)) }
    ensures many { IfOk result (λ plans. vec_len plans ≡ length routers.now) }
    ensures err { IfErr result (λ fault. fault ≢ faults.Memory
        → (routers_by (given_names names.now) 0 (map (λ n. n.now) earlier.old.items) (map counted_router routers.now)
        ≡ Err fault)) }
{
    let mut plans = Vec::new(alloc);
    for (number, router) in routers.iter().enumerate() {
        let name = router_named(alloc, names, number, earlier.as_slice(), router)?;
        match earlier.push(router.name) {
            Ok(()) => {}
            Err(_) => return Err(LoadFault::Memory),
        }
        match plans.push(router_plan(names, name, router)) {
            Ok(()) => {}
            Err(_) => return Err(LoadFault::Memory),
        }
    }
    Ok(plans)
}
