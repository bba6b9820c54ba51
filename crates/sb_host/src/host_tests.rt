//! Two hosts of a small bundle, turned by hand.

ghost use Rattle.std.specs.Prelude.{◌≡◌, ◌<◌, ◌+◌, ◌*◌, [], ◌∷◌, length, map, IfOk};
ghost use Rattle.sb_packet.specs.Scripts.{IsTransaction};
ghost use Rattle.sb_flow.specs.NetworkOf.{network_of};
ghost use Rattle.sb_flow.specs.Rows.{device_of, host_of, link_of, place_of, net_router_of};
ghost use Rattle.sb_flow.specs.Samples.{label as label_of, page_device, plain_link as plain_link_at};
ghost use Rattle.sb_host.specs.Hosts.{IsWholeHost};
ghost use Rattle.sb_host.specs.SmallNetwork.{lost_script, near_script, small, small_hosts, small_links, small_routers};

use crate::host::Host;
use sb_drive::Node;
use sb_flow::{Bundle, DevicePlan, HostPlan, LinkRow, Paths, Place, RouterPlan};
use sb_link::{Cause, Fabric, RxEnd, SerialFabric, Turn};
use sb_packet::{Bytes, Code, Kind, Name, Script, Txn, TxnState};
use sb_port::OutLeg;
use std::alloc::Global;
use std::test::Fail;

/// A name of three letters, of which the last two count.
fn label(letter: u8, n: u8) -> Result<Name, Fail>
    ensures { IfOk result (λ name. name ≡ label_of letter n) }
{
    let text = [letter, 97 + n / 26, 97 + n % 26];
    match Name::new(&text) {
        None => Err("a name")?,
        Some(name) => Ok(name),
    }
}

/// A read of words of 8 bytes.
fn read(alloc: Global, addr: u64, count: u16) -> Txn
    ensures { result ≡ record { kind = Kind.Read; size = 3; addr = addr; count = count; body = [] } }
{
    let body = Bytes::new(Vec::new(alloc));
    Txn {
        kind: Kind::Read,
        size: 3,
        addr,
        count,
        body,
    }
}

/// A write of one byte, posted or not.
fn nine(alloc: Global, kind: Kind, addr: u64) -> Result<Txn, Fail>
    ensures { IfOk result (λ txn. txn ≡ record { kind = kind; size = 0; addr = addr; count = 1; body = 9 ∷ [] }) }
{
    let body = Bytes::new(Vec::from_array(alloc, [9])?);
    Ok(Txn {
        kind,
        size: 0,
        addr,
        count: 1,
        body,
    })
}

/// What the first host asks for.
fn near(alloc: Global) -> Result<Script, Fail>
    ensures { IfOk result (λ script. script ≡ near_script) }
{
    let posted = nine(alloc, Kind::Posted, 8191)?;
    let txns = Vec::from_array(alloc, [read(alloc, 4096, 5), read(alloc, 0, 2), posted])?;
    Ok(Script::new(txns))
}

/// What the second one asks for.
fn lost(alloc: Global) -> Result<Script, Fail>
    ensures { IfOk result (λ script. script ≡ lost_script) }
{
    let written = nine(alloc, Kind::Write, 16)?;
    let posted = nine(alloc, Kind::Posted, 8192)?;
    let txns = Vec::from_array(alloc, [read(alloc, 0, 2), written, posted])?;
    Ok(Script::new(txns))
}

/// The hosts.
fn hosts(alloc: Global) -> Result<Vec<HostPlan>, Fail>
    ensures { IfOk result (λ hosts. map host_of hosts.items ≡ small_hosts) }
{
    let name = label(104, 0)?;
    let script = near(alloc)?;
    let first = HostPlan {
        name,
        id: 3,
        qos: 5,
        prot: 2,
        script,
    };
    let lost_name = label(104, 1)?;
    let lost_script = lost(alloc)?;
    let second = HostPlan {
        name: lost_name,
        id: 9,
        qos: 0,
        prot: 0,
        script: lost_script,
    };
    Ok(Vec::from_array(alloc, [first, second])?)
}

/// The router.
fn routers(alloc: Global) -> Result<Vec<RouterPlan>, Fail>
    ensures { IfOk result (λ routers. map (net_router_of 1) routers.items ≡ small_routers) }
{
    let mut routes = [None; 32];
    routes[0] = Some(2);
    let router = RouterPlan {
        name: label(114, 0)?,
        side: 0,
        routes,
    };
    Ok(Vec::from_array(alloc, [router])?)
}

/// The device.
fn devices(alloc: Global) -> Result<Vec<DevicePlan>, Fail>
    ensures { IfOk result (λ devices. map device_of devices.items ≡ page_device 0 ∷ []) }
{
    let name = label(100, 0)?;
    let image = Bytes::new(Vec::new(alloc));
    let device = DevicePlan {
        name,
        base: 4096,
        pages: 1,
        readonly: false,
        image,
    };
    Ok(Vec::from_array(alloc, [device])?)
}

/// A link.
fn plain_link(number: u8, from: Place, to: Place) -> Result<LinkRow, Fail>
    ensures { IfOk result (λ link. link_of link ≡ plain_link_at number (place_of from) (place_of to)) }
{
    let name = label(108, number)?;
    Ok(LinkRow {
        name,
        from,
        to,
        width: 32,
        capacity: 4,
    })
}

/// The links.
fn links(alloc: Global) -> Result<Vec<LinkRow>, Fail>
    ensures { IfOk result (λ links. map link_of links.items ≡ small_links) }
{
    let first = plain_link(0, Place::Host(0), Place::Router(0))?;
    let second = plain_link(1, Place::Host(1), Place::Router(0))?;
    let last = plain_link(2, Place::Router(0), Place::Device(0))?;
    Ok(Vec::from_array(alloc, [first, second, last])?)
}

/// The bundle.
fn bundle(alloc: Global) -> Result<Bundle, Fail>
    ensures { IfOk result (λ bundle. network_of bundle ≡ small) }
{
    let hosts = hosts(alloc)?;
    let routers = routers(alloc)?;
    let devices = devices(alloc)?;
    let links = links(alloc)?;
    Ok(Bundle {
        hosts,
        routers,
        devices,
        links,
        wire: None,
    })
}

/// A host of the bundle, at two new rings of a fabric.
fn host_at<F: Fabric>(
    alloc: Global,
    fabric: &mut F,
    bundle: &Bundle,
    number: u8,
) -> Result<Host<F>, Fail>
    requires small { network_of bundle.now ≡ small }
    requires number { number < 2 }
    requires new { F.made fabric.old ≡ [] }
    ensures whole { IfOk result (λ h. IsWholeHost h) }
    ensures lines { IfOk result (λ h. length h.transactions.asked.lines ≡ 3) }
{
    let paths = Paths::new(alloc, bundle)?;
    let ring = 2 * u16::from(number);
    let (requests, _) = fabric.make(alloc, &paths.plan(bundle, ring))?;
    let (_, answers) = fabric.make(alloc, &paths.plan(bundle, ring + 1))?;
    let leg = OutLeg {
        link: number,
        requests,
        answers,
    };
    Ok(Host::new(alloc, number, bundle, leg)?)
}

/// Six turns of a host.
fn turns<F: Fabric>(host: &mut Host<F>) -> [Turn; 6]
    requires whole { IsWholeHost host.old }
    requires lines { length host.old.transactions.asked.lines ≡ 3 }
    ensures lines { length host.new.transactions.asked.lines ≡ 3 }
{
    [
        host.turn(0),
        host.turn(1),
        host.turn(2),
        host.turn(3),
        host.turn(4),
        host.turn(5),
    ]
}

/// How far each of its three transactions has come.
fn states<F: Fabric>(host: &Host<F>) -> [TxnState; 3]
    requires lines { length host.now.transactions.asked.lines ≡ 3 }
{
    [host.state(0), host.state(1), host.state(2)]
}

/// What an idle host waits for: its ring of answers.
fn waits(ring: u16) -> Turn {
    Turn::Idle(Cause::Empty {
        ring,
        received: 0,
        sent: 0,
    })
}

const LOST: TxnState = TxnState::Answered { code: Code::NetErr };

#[test]
fn scripts_are_offered(rt: HostRuntime) -> Result<(), Fail> {
    let alloc = rt.alloc();
    let bundle = bundle(alloc)?;
    let mut fabric = SerialFabric::new(alloc);
    let mut host = host_at(alloc, &mut fabric, &bundle, 0)?;
    // two packets of the read and the posted write are offered, each is sent in the turn behind, and then the Close
    let moved = Turn::Moved;
    assert_eq!(rt;
        turns(&mut host),
        [moved, moved, moved, moved, moved, waits(1)]
    );
    assert_eq!(rt; states(&host), [TxnState::Waiting, LOST, TxnState::Posted]);
    assert_eq!(rt; host.requests().plan().ring, 0);
    assert_eq!(rt; host.requests().closed(), true);
    assert_eq!(rt; host.answers().plan().ring, 1);
    Ok(())
}

#[test]
fn lost_scripts_are_not_offered(rt: HostRuntime) -> Result<(), Fail> {
    let alloc = rt.alloc();
    let bundle = bundle(alloc)?;
    let mut fabric = SerialFabric::new(alloc);
    let mut host = host_at(alloc, &mut fabric, &bundle, 1)?;
    // only the Close
    assert_eq!(rt;
        turns(&mut host),
        [
            Turn::Moved,
            waits(3),
            waits(3),
            waits(3),
            waits(3),
            waits(3)
        ]
    );
    assert_eq!(rt; states(&host), [LOST, LOST, TxnState::Posted]);
    assert_eq!(rt; host.body(0), [0; 16].as_slice());
    let parts = host.into_parts();
    assert_eq!(rt; parts.transactions.state(1), LOST);
    assert_eq!(rt; parts.transactions.body(0), [0; 16].as_slice());
    assert_eq!(rt; parts.transactions.body(2).len(), 0);
    assert_eq!(rt; parts.requests.closed(), true);
    assert_eq!(rt; parts.answers.plan().ring, 3);
    Ok(())
}
