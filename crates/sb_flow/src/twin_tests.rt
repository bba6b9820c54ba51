//! Two links between the same two routers, and a host that asks for nothing.

ghost use Rattle.std.specs.Prelude.{◌≡◌, ◌≤◌, ◌<◌, ◌+◌, ◌*◌, [], ◌∷◌, map, false, None, All, IfOk};
ghost use Rattle.sb_packet.specs.Scripts.{IsTransaction};
ghost use Rattle.sb_flow.specs.Rows.{device_of, host_of, link_of, place_of, net_router_of};
ghost use Rattle.sb_flow.specs.NetworkOf.{network_of};
ghost use Rattle.sb_flow.specs.Samples.{label as label_of, page_device as page_device_at, plain_link as plain_link_at, twin_hosts, twin_links, twin_routers, twin_script, twins as twin_network};

use crate::bundle::Bundle;
use crate::device_plan::DevicePlan;
use crate::host_plan::HostPlan;
use crate::link_row::LinkRow;
use crate::paths::Paths;
use crate::place::Place;
use crate::router_plan::RouterPlan;
use crate::tests::label;
use sb_packet::{Bytes, Kind, Script, Txn};
use std::alloc::Global;
use std::test::Fail;

/// A read of words of 8 bytes.
fn read(alloc: Global, addr: u64, count: u16) -> Txn
    ensures { result ≡ record { kind = Kind.Read; size = 3; addr = addr; count = count; body = [] } }
{
    let body = Bytes::new(Vec::new(alloc));
    Txn {
        kind: Kind::Read,
        size: 3,
        addr,
        count,
        body,
    }
}

/// The hosts: the first reads at both devices.
fn hosts(alloc: Global) -> Result<Vec<HostPlan>, Fail>
    ensures { IfOk result (λ hosts. map host_of hosts.items ≡ twin_hosts) }
{
    let txns = Vec::from_array(alloc, [read(alloc, 4096, 2), read(alloc, 8192, 1)])?;
    let script = Script::new(txns);
    let idle_script = Script::new(Vec::new(alloc));
    let name = label(104, 0)?;
    let idle_name = label(104, 1)?;
    let host = HostPlan {
        name,
        id: 3,
        qos: 0,
        prot: 0,
        script,
    };
    let idle = HostPlan {
        name: idle_name,
        id: 9,
        qos: 0,
        prot: 0,
        script: idle_script,
    };
    Ok(Vec::from_array(alloc, [host, idle])?)
}

/// The routers.
fn routers(alloc: Global) -> Result<Vec<RouterPlan>, Fail>
    ensures { IfOk result (λ routers. map (net_router_of 2) routers.items ≡ twin_routers) }
{
    let mut routes = [None; 32];
    routes[0] = Some(2);
    routes[1] = Some(3);
    let first = RouterPlan {
        name: label(114, 0)?,
        side: 0,
        routes,
    };
    let mut later_routes = [None; 32];
    later_routes[0] = Some(4);
    later_routes[1] = Some(5);
    let second = RouterPlan {
        name: label(114, 1)?,
        side: 0,
        routes: later_routes,
    };
    Ok(Vec::from_array(alloc, [first, second])?)
}

/// A device of one page.
fn page_device(alloc: Global, number: u8) -> Result<DevicePlan, Fail>
    ensures { IfOk result (λ device. device_of device ≡ page_device_at number) }
{
    let name = label(100, number)?;
    let image = Bytes::new(Vec::new(alloc));
    let base = (u64::from(number) + 1) * 4096;
    Ok(DevicePlan {
        name,
        base,
        pages: 1,
        readonly: false,
        image,
    })
}

/// The devices.
fn devices(alloc: Global) -> Result<Vec<DevicePlan>, Fail>
    ensures { IfOk result (λ devices. map device_of devices.items ≡ page_device_at 0 ∷ page_device_at 1 ∷ []) }
{
    let first = page_device(alloc, 0)?;
    let second = page_device(alloc, 1)?;
    Ok(Vec::from_array(alloc, [first, second])?)
}

/// A link.
fn plain_link(number: u8, from: Place, to: Place) -> Result<LinkRow, Fail>
    ensures { IfOk result (λ link. link_of link ≡ plain_link_at number (place_of from) (place_of to)) }
{
    let name = label(108, number)?;
    Ok(LinkRow {
        name,
        from,
        to,
        width: 32,
        capacity: 4,
    })
}

/// The links.
fn links(alloc: Global) -> Result<Vec<LinkRow>, Fail>
    ensures { IfOk result (λ links. map link_of links.items ≡ twin_links) }
{
    let near = plain_link(0, Place::Host(0), Place::Router(0))?;
    let idle = plain_link(1, Place::Host(1), Place::Router(0))?;
    let left = plain_link(2, Place::Router(0), Place::Router(1))?;
    let right = plain_link(3, Place::Router(0), Place::Router(1))?;
    let first = plain_link(4, Place::Router(1), Place::Device(0))?;
    let second = plain_link(5, Place::Router(1), Place::Device(1))?;
    Ok(Vec::from_array(alloc, [near, idle, left, right, first, second])?)
}

/// The twins.
fn twins(alloc: Global) -> Result<Bundle, Fail>
    ensures { IfOk result (λ bundle. network_of bundle ≡ twin_network) }
{
    let hosts = hosts(alloc)?;
    let routers = routers(alloc)?;
    let devices = devices(alloc)?;
    let links = links(alloc)?;
    Ok(Bundle {
        hosts,
        routers,
        devices,
        links,
        wire: None,
    })
}

/// Each flow has its own link between the routers; the idle host has none.
#[test]
fn each_flow_has_its_link(rt: HostRuntime) -> Result<(), Fail> {
    let bundle = twins(rt.alloc())?;
    let paths = Paths::new(rt.alloc(), &bundle)?;
    assert_eq!(rt; paths.down(0, 3, 0), Some(2));
    assert_eq!(rt; paths.down(0, 3, 1), Some(3));
    assert_eq!(rt; paths.up(0, 3, 1), Some(0));
    assert_eq!(rt; paths.up(1, 3, 0), Some(2));
    assert_eq!(rt; paths.up(1, 3, 1), Some(3));
    assert_eq!(rt; paths.down(1, 3, 1), Some(5));
    assert_eq!(rt; paths.down(0, 9, 0), None);
    assert_eq!(rt; paths.up(0, 9, 1), None);
    Ok(())
}

/// The links between the routers have a flow each, and the idle host's link has none.
#[test]
fn each_ring_has_its_flows(rt: HostRuntime) -> Result<(), Fail> {
    let bundle = twins(rt.alloc())?;
    let paths = Paths::new(rt.alloc(), &bundle)?;
    let left = paths.plan(&bundle, 4);
    let right = paths.plan(&bundle, 7);
    let idle = paths.plan(&bundle, 2);
    assert_eq!(rt; (left.budget, left.flows.count), (2, 2));
    assert_eq!(rt; (right.budget, right.up), (1, true));
    assert_eq!(rt;
        (idle.budget, idle.flows.through[3], idle.flows.through[9]),
        (0, 0, 0)
    );
    assert_eq!(rt; (left.flows.through[3], left.flows.through[9]), (1, 0));
    assert_eq!(rt; (right.flows.through[3], right.flows.through[9]), (2, 0));
    Ok(())
}
