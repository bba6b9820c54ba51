//! The bundle of `solo`: a host with the script, a router, and a memory.

ghost use Rattle.std.specs.Prelude.{◌≡◌, ◌≤◌, All, IfOk, IsTrue, length, sum_by};
ghost use Rattle.sb_packet.specs.Names.{is_name};
ghost use Rattle.sb_packet.specs.Scripts.{IsTransaction};
ghost use Rattle.sb_flow.specs.NetworkOf.{network_of};
ghost use Rattle.sb_flow.specs.Rows.{device_of, host_of, link_of, net_router_of, place_of};
ghost use Rattle.sb_solo.specs.Solo.{solo_device, solo_host, solo_link, solo_network, solo_router};

use sb_flow::{Bundle, DevicePlan, HostPlan, LinkRow, Place, RouterPlan};
use sb_packet::{Bytes, Name, Script};
use std::alloc::{AllocError, Global};

/// The pages of the memory, which begins at address 0.
pub const PAGES: u32 = 16;

/// The name that a text is.
fn name(text: &[u8]) -> Name
    requires { IsTrue (is_name text.now) }
    ensures { result ≡ text.now }
{
    Name::new(text).unwrap()
}

/// The one host, which has the script.
fn host(script: Script) -> HostPlan
    requires { All IsTransaction script }
    ensures { host_of result ≡ solo_host script }
{
    HostPlan {
        name: name(b"host"),
        id: 0,
        qos: 0,
        prot: 0,
        script,
    }
}

/// The router, which leads on to the memory by the second link.
fn router() -> RouterPlan
    ensures { net_router_of 1 result ≡ solo_router }
{
    let mut routes = [None; 32];
    routes[0] = Some(1);
    RouterPlan {
        name: name(b"hub"),
        side: 0,
        routes,
    }
}

/// The memory.
fn memory(alloc: Global) -> DevicePlan
    ensures { device_of result ≡ solo_device }
{
    DevicePlan {
        name: name(b"mem"),
        base: 0,
        pages: PAGES,
        readonly: false,
        image: Bytes::new(Vec::new(alloc)),
    }
}

/// A link with room for one item on each ring.
fn link(name: Name, from: Place, to: Place) -> LinkRow
    ensures { link_of result ≡ solo_link name (place_of from) (place_of to) }
{
    LinkRow {
        name,
        from,
        to,
        width: 32,
        capacity: 1,
    }
}

/// The bundle that has a script and one memory.
///
/// # Errors
///
/// `AllocError` where there isn't enough memory.
pub fn solo_bundle(alloc: Global, script: Script) -> Result<Bundle, AllocError>
    requires transactions { All IsTransaction script }
    requires few { length script ≤ 65536 }
    requires words { sum_by (λ t. t.count) script ≤ 262144 }
    ensures network { IfOk result (λ bundle. network_of bundle ≡ solo_network script) }
{
    let hosts = Vec::from_array(alloc, [host(script)])?;
    let routers = Vec::from_array(alloc, [router()])?;
    let devices = Vec::from_array(alloc, [memory(alloc)])?;
    let up = link(name(b"up"), Place::Host(0), Place::Router(0));
    let down = link(name(b"dn"), Place::Router(0), Place::Device(0));
    let links = Vec::from_array(alloc, [up, down])?;
    Ok(Bundle {
        hosts,
        routers,
        devices,
        links,
        wire: None,
    })
}
