//! Which hosts and devices are printed, where only one side of the wire is.

ghost use Rattle.std.specs.Prelude.{◌≡◌, ◌<◌, ℕ, false, slice_index_or};
ghost use Rattle.std.specs.List.{find};
ghost use Rattle.std.specs.Option.{option_copied};
ghost use Rattle.sb_packet.specs.Networks.{device_side as device_side_by, host_side as host_side_by, leads_to as leads_to_by, leaves_from as leaves_from_by, side_at as side_at_by};
ghost use Rattle.sb_flow.specs.NetworkOf.{network_of};
ghost use Rattle.sb_flow.specs.Rows.{link_of, place_of};
ghost use Rattle.sb_text.specs.Reports.{is_printed};

use sb_flow::{Bundle, LinkRow, Place};

/// The side on which a place of a link stands: that of a router.
fn side_at(bundle: &Bundle, place: Place) -> u8
    ensures { result ≡ side_at_by (network_of bundle.now) (place_of place) }
{
    match place {
        Place::Router(router) => match bundle.routers.get(usize::from(router)) {
            Some(plan) => plan.side,
            None => 0,
        },
        Place::Host(_) | Place::Device(_) => 0,
    }
}

fn leaves_from(host: u8, link: &LinkRow) -> bool
    ensures { result ≡ leaves_from_by host (link_of link.now) }
{
    match link.from {
        Place::Host(from) => from == host,
        Place::Router(_) | Place::Device(_) => false,
    }
}

fn leads_to(device: u8, link: &LinkRow) -> bool
    ensures { result ≡ leads_to_by device (link_of link.now) }
{
    match link.to {
        Place::Device(to) => to == device,
        Place::Host(_) | Place::Router(_) => false,
    }
}

/// The link of a host.
fn link_from(bundle: &Bundle, host: u8) -> Option<&LinkRow>
    ensures { option_copied result ≡ find (λ link. leaves_from_by host (link_of link)) bundle.now.links.items }
{
    bundle.links.iter().find(|link| leaves_from(host, link))
}

/// The link of a device.
fn link_to(bundle: &Bundle, device: u8) -> Option<&LinkRow>
    ensures { option_copied result ≡ find (λ link. leads_to_by device (link_of link)) bundle.now.links.items }
{
    bundle.links.iter().find(|link| leads_to(device, link))
}

/// The side of a host: that of the router to which its link leads.
fn host_side(bundle: &Bundle, host: u8) -> u8
    ensures { result ≡ host_side_by (network_of bundle.now) host }
{
    match link_from(bundle, host) {
        Some(link) => side_at(bundle, link.to),
        None => 0,
    }
}

/// The side of a device: that of the router whose link leads to it.
fn device_side(bundle: &Bundle, device: u8) -> u8
    ensures { result ≡ device_side_by (network_of bundle.now) device }
{
    match link_to(bundle, device) {
        Some(link) => side_at(bundle, link.from),
        None => 0,
    }
}

/// Whether a host is printed.
pub fn shows_host(bundle: &Bundle, side: Option<u8>, host: u8) -> bool
    ensures { result ≡ is_printed side (host_side_by (network_of bundle.now) host) }
{
    match side {
        None => true,
        Some(side) => host_side(bundle, host) == side,
    }
}

/// Whether a device is printed.
pub fn shows_device(bundle: &Bundle, side: Option<u8>, device: u8) -> bool
    ensures { result ≡ is_printed side (device_side_by (network_of bundle.now) device) }
{
    match side {
        None => true,
        Some(side) => device_side(bundle, device) == side,
    }
}

/// For each place of a device, whether a device there is printed.
pub fn shown_devices(bundle: &Bundle, side: Option<u8>) -> [bool; 32]
    ensures { (d : ℕ) → d < 32 → slice_index_or result d false ≡ is_printed side (device_side_by (network_of bundle.now) d) }
{
    let mut shown = [false; 32];
    for device in 0..shown.len() {
        shown[device] = shows_device(bundle, side, device as u8);
    }
    shown
}
