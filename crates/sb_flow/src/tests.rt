//! Ways and plans of small bundles, run.

ghost use Rattle.std.specs.Prelude.{◌≡◌, ◌<◌, [], ◌∷◌, map, Some, IfOk};
ghost use Rattle.std.specs.List.{range_with_len};
ghost use Rattle.sb_flow.specs.Rows.{device_of, host_of, link_of, net_router_of};
ghost use Rattle.sb_flow.specs.NetworkOf.{network_of};
ghost use Rattle.sb_flow.specs.Samples.{chain as chain_network, chain_device, chain_host, chain_link as chain_link_at, chain_router as chain_router_at, chain_script, label as label_of};

use crate::addresses::target;
use crate::bundle::Bundle;
use crate::device_plan::DevicePlan;
use crate::host_plan::HostPlan;
use crate::link_row::LinkRow;
use crate::paths::Paths;
use crate::place::Place;
use crate::router_plan::RouterPlan;
use sb_packet::{Bytes, Kind, Name, Script, Txn};
use std::alloc::Global;
use std::test::Fail;

/// A name of three letters, of which the last two count.
pub fn label(letter: u8, n: u8) -> Result<Name, Fail>
    ensures { IfOk result (λ name. name ≡ label_of letter n) }
{
    let text = [letter, 97 + n / 26, 97 + n % 26];
    match Name::new(&text) {
        None => Err("a name")?,
        Some(name) => Ok(name),
    }
}

/// The script of the chain's host.
fn script(alloc: Global) -> Result<Script, Fail>
    ensures { IfOk result (λ script. script ≡ chain_script) }
{
    let nothing = Bytes::new(Vec::new(alloc));
    let read = Txn {
        kind: Kind::Read,
        size: 3,
        addr: 4096,
        count: 2,
        body: nothing,
    };
    let nine = Bytes::new(Vec::from_array(alloc, [9])?);
    let post = Txn {
        kind: Kind::Posted,
        size: 0,
        addr: 8191,
        count: 1,
        body: nine,
    };
    let txns = Vec::from_array(alloc, [read, post])?;
    Ok(Script::new(txns))
}

/// The chain's host.
fn hosts(alloc: Global) -> Result<Vec<HostPlan>, Fail>
    ensures { IfOk result (λ hosts. map host_of hosts.items ≡ chain_host ∷ []) }
{
    let name = label(104, 0)?;
    let script = script(alloc)?;
    let host = HostPlan {
        name,
        id: 7,
        qos: 0,
        prot: 0,
        script,
    };
    Ok(Vec::from_array(alloc, [host])?)
}

/// The chain's device.
fn devices(alloc: Global) -> Result<Vec<DevicePlan>, Fail>
    ensures { IfOk result (λ devices. map device_of devices.items ≡ chain_device ∷ []) }
{
    let name = label(100, 0)?;
    let image = Bytes::new(Vec::new(alloc));
    let device = DevicePlan {
        name,
        base: 4096,
        pages: 1,
        readonly: false,
        image,
    };
    Ok(Vec::from_array(alloc, [device])?)
}

/// A router of the chain.
fn chain_router(number: u8) -> Result<RouterPlan, Fail>
    requires { number < 32 }
    ensures { IfOk result (λ router. net_router_of 1 router ≡ chain_router_at number) }
{
    let name = label(114, number)?;
    let side = if number < 16 { 0 } else { 1 };
    let mut routes = [None; 32];
    routes[0] = Some(number + 1);
    Ok(RouterPlan { name, side, routes })
}

/// A link of the chain.
fn chain_link(number: u8) -> Result<LinkRow, Fail>
    requires { number < 33 }
    ensures { IfOk result (λ link. link_of link ≡ chain_link_at number) }
{
    let name = label(108, number)?;
    let from = if number == 0 {
        Place::Host(0)
    } else {
        Place::Router(number - 1)
    };
    let to = if number == 32 {
        Place::Device(0)
    } else {
        Place::Router(number)
    };
    let width = if number < 16 {
        32
    } else if number == 16 {
        8
    } else {
        16
    };
    let capacity = u16::from(number) + 1;
    Ok(LinkRow {
        name,
        from,
        to,
        width,
        capacity,
    })
}

/// The chain's routers.
fn routers(alloc: Global) -> Result<Vec<RouterPlan>, Fail>
    ensures { IfOk result (λ routers. map (net_router_of 1) routers.items ≡ map chain_router_at (range_with_len 0 32)) }
{
    let mut routers = Vec::new(alloc);
    for number in 0..32 {
        let router = chain_router(number)?;
        routers.push(router)?;
    }
    Ok(routers)
}

/// The chain's links.
fn links(alloc: Global) -> Result<Vec<LinkRow>, Fail>
    ensures { IfOk result (λ links. map link_of links.items ≡ map chain_link_at (range_with_len 0 33)) }
{
    let mut links = Vec::new(alloc);
    for number in 0..33 {
        let link = chain_link(number)?;
        links.push(link)?;
    }
    Ok(links)
}

/// The chain.
fn chain(alloc: Global) -> Result<Bundle, Fail>
    ensures { IfOk result (λ bundle. network_of bundle ≡ chain_network) }
{
    let hosts = hosts(alloc)?;
    let routers = routers(alloc)?;
    let devices = devices(alloc)?;
    let links = links(alloc)?;
    Ok(Bundle {
        hosts,
        routers,
        devices,
        links,
        wire: Some(16),
    })
}

/// The chain's one flow goes from link to link, and from each router up and down.
#[test]
fn chain_is_walked(rt: HostRuntime) -> Result<(), Fail> {
    let bundle = chain(rt.alloc())?;
    let paths = Paths::new(rt.alloc(), &bundle)?;
    for router in 0..32u8 {
        assert_eq!(rt; paths.down(router, 7, 0), Some(router + 1));
        assert_eq!(rt; paths.up(router, 7, 0), Some(router));
        assert_eq!(rt; paths.down(router, 7, 1), None);
        assert_eq!(rt; paths.down(router, 0, 0), None);
    }
    assert_eq!(rt; paths.down(32, 7, 0), None);
    Ok(())
}

/// Its device has one page.
#[test]
fn one_page_is_aimed_at(rt: HostRuntime) -> Result<(), Fail> {
    let bundle = chain(rt.alloc())?;
    assert_eq!(rt; target(&bundle, 4095), None);
    assert_eq!(rt; target(&bundle, 4096), Some(0));
    assert_eq!(rt; target(&bundle, 8191), Some(0));
    assert_eq!(rt; target(&bundle, 8192), None);
    Ok(())
}

/// The plan of a ring in the middle of the chain, where the wire is, and those of the wire's far ends.
#[test]
fn chain_is_planned(rt: HostRuntime) -> Result<(), Fail> {
    let bundle = chain(rt.alloc())?;
    let paths = Paths::new(rt.alloc(), &bundle)?;
    let down = paths.plan(&bundle, 32);
    let up = paths.plan(&bundle, 33);
    let far_down = paths.plan(&bundle, 66);
    let far_up = paths.plan(&bundle, 67);
    assert_eq!(rt;
        (down.ring, down.up, down.width, down.capacity, down.budget),
        (32, false, 8, 17, 3)
    );
    assert_eq!(rt;
        (up.ring, up.up, up.width, up.capacity, up.budget),
        (33, true, 8, 17, 2)
    );
    assert_eq!(rt;
        (
            far_down.ring,
            far_down.up,
            far_down.width,
            far_down.capacity,
            far_down.budget
        ),
        (66, false, 8, 17, 3)
    );
    assert_eq!(rt;
        (
            far_up.ring,
            far_up.up,
            far_up.width,
            far_up.capacity,
            far_up.budget
        ),
        (67, true, 8, 17, 2)
    );
    assert_eq!(rt; down.flows.count, 1);
    assert_eq!(rt; down.flows.base, far_up.flows.base);
    assert_eq!(rt; far_up.flows.through, down.flows.through);
    assert_eq!(rt; down.flows, far_down.flows);
    Ok(())
}
