//! A network for tests: two hosts, a router, and two devices, each at a link of its own.

ghost use Rattle.std.specs.Prelude.{◌≡◌, [], ◌∷◌, map, IfOk};
ghost use Rattle.sb_flow.specs.Rows.{device_of, host_of, link_of, place_of, net_router_of};
ghost use Rattle.sb_flow.specs.NetworkOf.{network_of};
ghost use Rattle.sb_flow.specs.Samples.{label as label_of, page_device as page_device_at, plain_link as plain_link_at};
ghost use Rattle.sb_router.specs.Samples.{crossing as crossing_network, crossing_hosts, crossing_links, crossing_router, read as read_of};

use sb_flow::{Bundle, DevicePlan, HostPlan, LinkRow, Place, RouterPlan};
use sb_packet::{Bytes, Kind, Name, Script, Txn};
use std::alloc::Global;
use std::test::Fail;

// a name of three letters, of which the last two count
fn label(letter: u8, n: u8) -> Result<Name, Fail>
    ensures { IfOk result (λ name. name ≡ label_of letter n) }
{
    let text = [letter, 97 + n / 26, 97 + n % 26];
    match Name::new(&text) {
        None => Err("a name")?,
        Some(name) => Ok(name),
    }
}

// a read of words of 8 bytes
fn read(alloc: Global, addr: u64, count: u16) -> Txn
    ensures { result ≡ read_of addr count }
{
    let body = Bytes::new(Vec::new(alloc));
    Txn {
        kind: Kind::Read,
        size: 3,
        addr,
        count,
        body,
    }
}

fn hosts(alloc: Global) -> Result<Vec<HostPlan>, Fail>
    ensures { IfOk result (λ hosts. map host_of hosts.items ≡ crossing_hosts) }
{
    let txns = Vec::from_array(alloc, [read(alloc, 4096, 1), read(alloc, 8192, 2)])?;
    let first = HostPlan {
        name: label(104, 0)?,
        id: 5,
        qos: 0,
        prot: 0,
        script: Script::new(txns),
    };
    let second_txns = Vec::from_array(alloc, [read(alloc, 4096, 1)])?;
    let second = HostPlan {
        name: label(104, 1)?,
        id: 2,
        qos: 0,
        prot: 0,
        script: Script::new(second_txns),
    };
    Ok(Vec::from_array(alloc, [first, second])?)
}

fn routers(alloc: Global) -> Result<Vec<RouterPlan>, Fail>
    ensures { IfOk result (λ routers. map (net_router_of 2) routers.items ≡ crossing_router ∷ []) }
{
    let mut routes = [None; 32];
    routes[0] = Some(2);
    routes[1] = Some(3);
    let router = RouterPlan {
        name: label(114, 0)?,
        side: 0,
        routes,
    };
    Ok(Vec::from_array(alloc, [router])?)
}

// a device of one page
fn device(alloc: Global, number: u8) -> Result<DevicePlan, Fail>
    ensures { IfOk result (λ device. device_of device ≡ page_device_at number) }
{
    let name = label(100, number)?;
    let image = Bytes::new(Vec::new(alloc));
    let base = (u64::from(number) + 1) * 4096;
    Ok(DevicePlan {
        name,
        base,
        pages: 1,
        readonly: false,
        image,
    })
}

fn devices(alloc: Global) -> Result<Vec<DevicePlan>, Fail>
    ensures { IfOk result (λ devices. map device_of devices.items ≡ page_device_at 0 ∷ page_device_at 1 ∷ []) }
{
    let first = device(alloc, 0)?;
    let second = device(alloc, 1)?;
    Ok(Vec::from_array(alloc, [first, second])?)
}

fn link(number: u8, width: u8, from: Place, to: Place) -> Result<LinkRow, Fail>
    ensures { IfOk result (λ link. link_of link ≡ record (plain_link_at number (place_of from) (place_of to)) { width = width }) }
{
    Ok(LinkRow {
        name: label(108, number)?,
        from,
        to,
        width,
        capacity: 4,
    })
}

fn links(alloc: Global) -> Result<Vec<LinkRow>, Fail>
    ensures { IfOk result (λ links. map link_of links.items ≡ crossing_links) }
{
    let first_host = link(0, 8, Place::Host(0), Place::Router(0))?;
    let second_host = link(1, 32, Place::Host(1), Place::Router(0))?;
    let first_device = link(2, 32, Place::Router(0), Place::Device(0))?;
    let second_device = link(3, 32, Place::Router(0), Place::Device(1))?;
    Ok(Vec::from_array(
        alloc,
        [first_host, second_host, first_device, second_device],
    )?)
}

/// The network as a bundle.
pub fn crossing(alloc: Global) -> Result<Bundle, Fail>
    ensures { IfOk result (λ bundle. network_of bundle ≡ crossing_network) }
{
    let hosts = hosts(alloc)?;
    let routers = routers(alloc)?;
    let devices = devices(alloc)?;
    let links = links(alloc)?;
    Ok(Bundle {
        hosts,
        routers,
        devices,
        links,
        wire: None,
    })
}
