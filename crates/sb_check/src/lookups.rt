//! What a bundle has for an entry: its host, and the width of the link to its device.

ghost use Rattle.std.specs.Prelude.{◌≡◌, ◌<◌, ◌==◌, find, length, option_copied, IfSome};
ghost use Rattle.std.specs.List.{position_from};
ghost use Rattle.sb_packet.specs.Networks.{leads_to, width_to as width_of_link_to};
ghost use Rattle.sb_flow.specs.NetworkOf.{network_of};
ghost use Rattle.sb_flow.specs.Rows.{link_of};

use sb_flow::{Bundle, LinkRow, Place};

/// The place of the host with an id; None exactly where no host has it.
pub fn host_place(bundle: &Bundle, id: u8) -> Option<usize>
    ensures place { result ≡ position_from (λ h. h.id == id) 0 bundle.now.hosts.items }
    ensures there { IfSome result (λ place. place < length bundle.now.hosts.items) }
{
    bundle.hosts.iter().position(|host| host.id == id)
}

/// Whether a link leads to a device.
fn leads(row: &LinkRow, device: u8) -> bool
    ensures { result ≡ leads_to device (link_of row.now) }
{
    match row.to {
        Place::Device(place) => place == device,
        Place::Host(_) | Place::Router(_) => false,
    }
}

/// The first link that leads to a device.
fn link_to(links: &[LinkRow], device: u8) -> Option<&LinkRow>
    ensures { option_copied result ≡ find (λ row. leads_to device (link_of row)) links.now }
{
    links.iter().find(|row| leads(row, device))
}

/// The width of the link that leads to a device, in bytes; 0 where there is none.
pub fn width_to(bundle: &Bundle, device: u8) -> u8
    ensures { result ≡ width_of_link_to (network_of bundle.now) device }
{
    match link_to(&bundle.links, device) {
        None => 0,
        Some(row) => row.width,
    }
}
