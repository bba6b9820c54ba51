//! Reports of a small network, printed.

ghost use Rattle.std.specs.Prelude.{◌≡◌, ◌<◌, [], ◌∷◌, length, map, All, IfOk};
ghost use Rattle.sb_packet.specs.Scripts.{IsTransaction};
ghost use Rattle.sb_flow.specs.Rows.{device_of, host_of, link_of, net_router_of, place_of};
ghost use Rattle.sb_flow.specs.NetworkOf.{network_of};
ghost use Rattle.sb_text.specs.Samples.{side_device as side_device_at, side_devices, side_hosts, side_link as side_link_at, side_links, side_routers, side_script, two_sides as two_sides_network, two_sides_results};

use crate::{LineWord, Printed, Results, print, print_line};
use sb_flow::{Bundle, DevicePlan, HostPlan, LinkRow, Place, RouterPlan};
use sb_io::ByteSink;
use sb_packet::{
    Bytes, Code, Entry, Journal, Kind, Name, Script, Txn, TxnState, packet_of, packets,
};
use std::alloc::Global;
use std::test::Fail;

/// What the network's run came to: the bytes that were read, and those of both devices.
#[derive(Drop)]
struct Told {
    body: Vec<u8>,
    first: Vec<u8>,
    second: Vec<u8>,
}

impl Results for Told {
    ghost tells = { λ t told. told ≡ two_sides_results t.body.items t.first.items t.second.items };

    fn state(&self, _host: u8, index: u32) -> TxnState {
        match index {
            0 => TxnState::Posted,
            _ => TxnState::Answered { code: Code::Ok },
        }
    }

    fn body(&self, _host: u8, index: u32) -> &[u8] {
        match index {
            0 => &[],
            _ => self.body.as_slice(),
        }
    }

    fn image(&self, device: u8) -> &[u8] {
        match device {
            0 => self.first.as_slice(),
            _ => self.second.as_slice(),
        }
    }
}

/// A name.
fn name(text: &[u8]) -> Result<Name, Fail>
    ensures { IfOk result (λ name. name ≡ text.now) }
{
    match Name::new(text) {
        None => Err("a name")?,
        Some(name) => Ok(name),
    }
}

/// The write.
fn post(alloc: Global) -> Result<Txn, Fail>
    ensures { IfOk result (λ txn. txn ≡ record { kind = Kind.Posted; size = 0; addr = 4104; count = 1; body = 9 ∷ [] }) }
{
    let body = Bytes::new(Vec::from_array(alloc, [9])?);
    Ok(Txn {
        kind: Kind::Posted,
        size: 0,
        addr: 4104,
        count: 1,
        body,
    })
}

/// The read.
fn read(alloc: Global) -> Txn
    ensures { result ≡ record { kind = Kind.Read; size = 3; addr = 16; count = 1; body = [] } }
{
    let body = Bytes::new(Vec::new(alloc));
    Txn {
        kind: Kind::Read,
        size: 3,
        addr: 16,
        count: 1,
        body,
    }
}

/// The host.
fn hosts(alloc: Global) -> Result<Vec<HostPlan>, Fail>
    ensures { IfOk result (λ hosts. map host_of hosts.items ≡ side_hosts) }
{
    let script = Script::new(Vec::from_array(alloc, [post(alloc)?, read(alloc)])?);
    let name = name(b"h")?;
    let host = HostPlan {
        name,
        id: 1,
        qos: 0,
        prot: 0,
        script,
    };
    Ok(Vec::from_array(alloc, [host])?)
}

/// The routers.
fn routers(alloc: Global) -> Result<Vec<RouterPlan>, Fail>
    ensures { IfOk result (λ routers. map (net_router_of 2) routers.items ≡ side_routers) }
{
    let mut routes = [None; 32];
    routes[0] = Some(1);
    routes[1] = Some(2);
    let first = RouterPlan {
        name: name(b"r0")?,
        side: 0,
        routes,
    };
    let mut later_routes = [None; 32];
    later_routes[1] = Some(3);
    let second = RouterPlan {
        name: name(b"r1")?,
        side: 1,
        routes: later_routes,
    };
    Ok(Vec::from_array(alloc, [first, second])?)
}

/// A device of one page.
fn device(alloc: Global, text: &[u8], base: u64) -> Result<DevicePlan, Fail>
    ensures { IfOk result (λ device. device_of device ≡ side_device_at text.now base) }
{
    let name = name(text)?;
    let image = Bytes::new(Vec::new(alloc));
    Ok(DevicePlan {
        name,
        base,
        pages: 1,
        readonly: false,
        image,
    })
}

/// The devices.
fn devices(alloc: Global) -> Result<Vec<DevicePlan>, Fail>
    ensures { IfOk result (λ devices. map device_of devices.items ≡ side_devices) }
{
    let first = device(alloc, b"d0", 0)?;
    let second = device(alloc, b"d1", 4096)?;
    Ok(Vec::from_array(alloc, [first, second])?)
}

/// A link.
fn link(text: &[u8], from: Place, to: Place) -> Result<LinkRow, Fail>
    ensures { IfOk result (λ link. link_of link ≡ side_link_at text.now (place_of from) (place_of to)) }
{
    let name = name(text)?;
    Ok(LinkRow {
        name,
        from,
        to,
        width: 32,
        capacity: 1,
    })
}

/// The links.
fn links(alloc: Global) -> Result<Vec<LinkRow>, Fail>
    ensures { IfOk result (λ links. map link_of links.items ≡ side_links) }
{
    let up = link(b"l0", Place::Host(0), Place::Router(0))?;
    let near = link(b"l1", Place::Router(0), Place::Device(0))?;
    let wire = link(b"l2", Place::Router(0), Place::Router(1))?;
    let far = link(b"l3", Place::Router(1), Place::Device(1))?;
    Ok(Vec::from_array(alloc, [up, near, wire, far])?)
}

/// The network.
fn two_sides(alloc: Global) -> Result<Bundle, Fail>
    ensures { IfOk result (λ bundle. network_of bundle ≡ two_sides_network) }
{
    let hosts = hosts(alloc)?;
    let routers = routers(alloc)?;
    let devices = devices(alloc)?;
    let links = links(alloc)?;
    Ok(Bundle {
        hosts,
        routers,
        devices,
        links,
        wire: Some(2),
    })
}

/// The entry of a transaction of one packet, by its number in the host's script.
fn entry(round: u32, device: u8, index: u32, txn: &Txn) -> Entry
    requires txn { IsTransaction txn.now }
    requires index { index < 65536 }
    ensures { result.device ≡ device }
{
    let _count = packets(txn, 32);
    Entry {
        round,
        device,
        packet: packet_of(1, 0, 0, index, txn, 32, 0),
    }
}

/// What the run came to: two bytes of the second device aren't zero.
fn example_run(alloc: Global) -> Result<Told, Fail>
    ensures first { IfOk result (λ t. length t.first.items ≡ 4096) }
    ensures second { IfOk result (λ t. length t.second.items ≡ 4096) }
{
    let body = Vec::from_array(alloc, [0, 1, 2, 3, 4, 0xaa, 0xbb, 0xff])?;
    let first = vec![in alloc; 0u8; 4096]?;
    let mut second = vec![in alloc; 0u8; 4096]?;
    second[8] = 9;
    second[4095] = 0xfe;
    Ok(Told {
        body,
        first,
        second,
    })
}

/// The journal: the read in round 1, and the write in round 2.
fn journal(alloc: Global) -> Result<Journal, Fail>
    ensures { IfOk result (λ j. All (λ e. e.device < 2) j.entries) }
{
    let mut journal = Journal::new(alloc);
    journal.reserve(2)?;
    journal.add(&entry(1, 0, 1, &read(alloc)));
    journal.add(&entry(2, 1, 0, &post(alloc)?));
    Ok(journal)
}

/// The report with those settings, written byte by byte.
fn report(alloc: Global, history: bool, side: Option<u8>) -> Result<ByteSink, Fail> {
    let bundle = two_sides(alloc)?;
    let run = example_run(alloc)?;
    let journal = journal(alloc)?;
    let mut sink = ByteSink::new(alloc, 1024, 1, &[])?;
    match print(&mut sink, &bundle, &run, &journal, history, side) {
        Printed::Done => Ok(sink),
        Printed::Failed => Err("it failed")?,
    }
}

#[test]
fn reports_are_printed(rt: HostRuntime) -> Result<(), Fail> {
    let alloc = rt.alloc();
    let all = b"sb 1\nhistory 2\n\
e 1 d0 08400061 00000000000010 00010000000800 -\n\
e 2 d1 08400005 00000000001008 00010000000000 09\n\
host h 2\nt 0 posted -\nt 1 ok 0001020304aabbff\n\
device d0 1\ndevice d1 1\n\
m 00000 0000000000000000090000000000000000000000000000000000000000000000\n\
m 00fe0 00000000000000000000000000000000000000000000000000000000000000fe\nend\n";
    assert_eq!(rt; report(alloc, true, None)?.as_slice(), all.as_slice());

    let near = b"sb 1 side 0\nhistory 1\n\
e 1 d0 08400061 00000000000010 00010000000800 -\n\
host h 2\nt 0 posted -\nt 1 ok 0001020304aabbff\ndevice d0 1\nend\n";
    assert_eq!(rt; report(alloc, true, Some(0))?.as_slice(), near.as_slice());

    let far = b"sb 1 side 1\ndevice d1 1\n\
m 00000 0000000000000000090000000000000000000000000000000000000000000000\n\
m 00fe0 00000000000000000000000000000000000000000000000000000000000000fe\nend\n";
    assert_eq!(rt; report(alloc, false, Some(1))?.as_slice(), far.as_slice());
    Ok(())
}

/// A line whose sink fails at its fourth byte.
#[test]
fn lines_are_printed(rt: HostRuntime) -> Result<(), Fail> {
    let words = [
        LineWord::Text(b"refused"),
        LineWord::Text(b"route"),
        LineWord::Number(0),
        LineWord::Number(31),
    ];
    let mut sink = ByteSink::new(rt.alloc(), 64, 1, &[])?;
    assert_eq!(rt; print_line(&mut sink, &words), Printed::Done);
    assert_eq!(rt; sink.as_slice(), b"refused route 0 31\n".as_slice());

    let mut failing = ByteSink::new(rt.alloc(), 64, 1, &[3])?;
    assert_eq!(rt; print_line(&mut failing, &words), Printed::Failed);
    assert_eq!(rt; failing.as_slice(), b"ref".as_slice());
    Ok(())
}
