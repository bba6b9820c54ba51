//! What a run is made of.

ghost use Rattle.std.specs.Prelude.{◌≡◌, ◌≤◌, true, None};
ghost use Rattle.sb_flow.specs.Rows.{rows_network};
ghost use Rattle.sb_flow.specs.Accepted.{is_limited, misplaced_device, names_what_is_there, overfull_device, overlapping_device, repeated_id, repeated_link_name, repeated_name, route_fault, word_count};
ghost use Rattle.sb_flow.specs.Ends.{backward_link, odd_width, unfit_link, unlinked_place};

use crate::device_plan::DevicePlan;
use crate::host_plan::HostPlan;
use crate::link_row::LinkRow;
use crate::router_plan::RouterPlan;

/// A network that can be run: hosts with their scripts, routers, devices and links. Contracts see it as the network
/// of the definitions.
#[derive(Debug, Drop)]
pub struct Bundle {
    /// 1 to 32 hosts, with scripts of 262,144 words in all at most.
    pub hosts: Vec<HostPlan>,
    /// 1 to 32 routers.
    pub routers: Vec<RouterPlan>,
    /// 1 to 32 devices, which lie apart from each other below `2^56`.
    pub devices: Vec<DevicePlan>,
    /// 1 to 128 links, none of which leads back.
    pub links: Vec<LinkRow>,
    /// The link that can be carried over a wire.
    pub wire: Option<u8>,

    // it is neither empty nor too large, and all its numbers are in range
    pub ghost limits: { is_limited (rows_network hosts.items routers.items devices.items links.items wire) ≡ true },
    // no two hosts, routers or devices have one name, and no two links; and what is named is there
    pub ghost names: { repeated_name (rows_network hosts.items routers.items devices.items links.items wire) ≡ None },
    pub ghost link_names: { repeated_link_name (rows_network hosts.items routers.items devices.items links.items wire) ≡ None },
    pub ghost named: { names_what_is_there (rows_network hosts.items routers.items devices.items links.items wire) ≡ true },
    // no two hosts have one id
    pub ghost ids: { repeated_id (rows_network hosts.items routers.items devices.items links.items wire) ≡ None },
    // devices are whole pages, lie apart, and have room for their images
    pub ghost placed: { misplaced_device (rows_network hosts.items routers.items devices.items links.items wire) ≡ None },
    pub ghost apart: { overlapping_device (rows_network hosts.items routers.items devices.items links.items wire) ≡ None },
    pub ghost images: { overfull_device (rows_network hosts.items routers.items devices.items links.items wire) ≡ None },
    // links have a width that there is, join what they may, none leads back, and every host and device has one
    pub ghost widths: { odd_width (rows_network hosts.items routers.items devices.items links.items wire) ≡ None },
    pub ghost ends: { unfit_link (rows_network hosts.items routers.items devices.items links.items wire) ≡ None },
    pub ghost forward: { backward_link (rows_network hosts.items routers.items devices.items links.items wire) ≡ None },
    pub ghost linked: { unlinked_place (rows_network hosts.items routers.items devices.items links.items wire) ≡ None },
    // each route leads on, and none is missing where a host aims
    pub ghost routes: { route_fault (rows_network hosts.items routers.items devices.items links.items wire) ≡ None },
    // the words of all scripts are not too many
    pub ghost words: { word_count (rows_network hosts.items routers.items devices.items links.items wire) ≤ 262144 },
}
