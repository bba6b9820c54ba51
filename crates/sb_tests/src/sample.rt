//! The network that the tests run.

ghost use Rattle.std.specs.Prelude.{◌≡◌, [], ◌∷◌, map, IfOk};
ghost use Rattle.sb_flow.specs.NetworkOf.{network_of};
ghost use Rattle.sb_flow.specs.Rows.{device_of, host_of, link_of, net_router_of};
ghost use Rattle.sb_tests.specs.Samples.{far_link, forty_bytes, near_link, sample, sample_device, sample_host, sample_router, sample_script};

use sb_flow::{Bundle, DevicePlan, HostPlan, LinkRow, Place, RouterPlan};
use sb_packet::{AtomicOp, Bytes, Kind, Name, Script, Txn};
use std::alloc::{AllocError, Global};
use std::test::Fail;

/// The device's one page.
pub const PAGE: u64 = 0x1000;

/// A name.
fn name(text: &[u8]) -> Result<Name, Fail>
    ensures { IfOk result (λ name. name ≡ text.now) }
{
    match Name::new(text) {
        None => Err("a name")?,
        Some(name) => Ok(name),
    }
}

/// Bytes of their own.
fn bytes(alloc: Global, from: &[u8]) -> Result<Bytes, AllocError>
    ensures { IfOk result (λ bytes. bytes ≡ from.now) }
{
    let kept = Vec::from_slice(alloc, from)?;
    Ok(Bytes::new(kept))
}

/// A transaction.
fn txn(
    alloc: Global,
    kind: Kind,
    size: u8,
    addr: u64,
    count: u16,
    body: &[u8],
) -> Result<Txn, AllocError>
    ensures { IfOk result (λ t. t ≡ record { kind = kind; size = size; addr = addr; count = count; body = body.now }) }
{
    let body = bytes(alloc, body)?;
    Ok(Txn {
        kind,
        size,
        addr,
        count,
        body,
    })
}

/// Forty bytes, each its place and one more.
pub fn forty() -> [u8; 40]
    ensures { result ≡ forty_bytes }
{
    [
        1, 2, 3, 4, 5, 6, 7, 8, 9, 10, 11, 12, 13, 14, 15, 16, 17, 18, 19, 20, 21, 22, 23, 24, 25,
        26, 27, 28, 29, 30, 31, 32, 33, 34, 35, 36, 37, 38, 39, 40,
    ]
}

/// The script of the host.
fn script(alloc: Global) -> Result<Script, AllocError>
    ensures { IfOk result (λ script. script ≡ sample_script) }
{
    let forty = forty();
    let write = txn(alloc, Kind::Write, 2, PAGE + 64, 10, &forty)?;
    let read_back = txn(alloc, Kind::Read, 2, PAGE + 64, 10, &[])?;
    let post = txn(alloc, Kind::Posted, 0, PAGE + 4095, 1, &[9])?;
    let add = txn(
        alloc,
        Kind::Atomic(AtomicOp::Add),
        2,
        PAGE + 64,
        1,
        &[255, 0, 0, 0],
    )?;
    let stray = txn(alloc, Kind::Read, 3, 3 * PAGE, 2, &[])?;
    let changed = txn(alloc, Kind::Read, 2, PAGE + 64, 1, &[])?;
    let posted = txn(alloc, Kind::Read, 0, PAGE + 4095, 1, &[])?;
    let txns = Vec::from_array(alloc, [write, read_back, post, add, stray, changed, posted])?;
    Ok(Script::new(txns))
}

/// The host.
fn hosts(alloc: Global) -> Result<Vec<HostPlan>, Fail>
    ensures { IfOk result (λ hosts. map host_of hosts.items ≡ sample_host ∷ []) }
{
    let name = name(b"h")?;
    let script = script(alloc)?;
    let host = HostPlan {
        name,
        id: 0,
        qos: 0,
        prot: 0,
        script,
    };
    Ok(Vec::from_array(alloc, [host])?)
}

/// The router.
fn routers(alloc: Global) -> Result<Vec<RouterPlan>, Fail>
    ensures { IfOk result (λ routers. map (net_router_of 1) routers.items ≡ sample_router ∷ []) }
{
    let name = name(b"r")?;
    let mut routes = [None; 32];
    routes[0] = Some(1);
    let router = RouterPlan {
        name,
        side: 0,
        routes,
    };
    Ok(Vec::from_array(alloc, [router])?)
}

/// The device.
fn devices(alloc: Global) -> Result<Vec<DevicePlan>, Fail>
    ensures { IfOk result (λ devices. map device_of devices.items ≡ sample_device ∷ []) }
{
    let name = name(b"d")?;
    let image = Bytes::new(Vec::new(alloc));
    let device = DevicePlan {
        name,
        base: PAGE,
        pages: 1,
        readonly: false,
        image,
    };
    Ok(Vec::from_array(alloc, [device])?)
}

/// The links.
fn links(alloc: Global) -> Result<Vec<LinkRow>, Fail>
    ensures { IfOk result (λ links. map link_of links.items ≡ near_link ∷ far_link ∷ []) }
{
    let near_name = name(b"n")?;
    let far_name = name(b"f")?;
    let near = LinkRow {
        name: near_name,
        from: Place::Host(0),
        to: Place::Router(0),
        width: 32,
        capacity: 2,
    };
    let far = LinkRow {
        name: far_name,
        from: Place::Router(0),
        to: Place::Device(0),
        width: 32,
        capacity: 1,
    };
    Ok(Vec::from_array(alloc, [near, far])?)
}

/// The network.
pub fn bundle(alloc: Global) -> Result<Bundle, Fail>
    ensures { IfOk result (λ bundle. network_of bundle ≡ sample) }
{
    let hosts = hosts(alloc)?;
    let routers = routers(alloc)?;
    let devices = devices(alloc)?;
    let links = links(alloc)?;
    Ok(Bundle {
        hosts,
        routers,
        devices,
        links,
        wire: None,
    })
}
