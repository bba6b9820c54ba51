//! The bundle that a number makes.

ghost use Rattle.std.specs.Prelude.{◌≡◌, ◌≤◌, [], ◌∷◌, IfOk, IsTrue, OnOk, map};
ghost use Rattle.sb_packet.specs.Names.{is_name};
ghost use Rattle.sb_flow.specs.NetworkOf.{network_of};
ghost use Rattle.sb_flow.specs.Rows.{device_of, host_of, link_of, net_router_of, place_of};
ghost use Rattle.sb_gen.specs.Congruence.{state_after};
ghost use Rattle.sb_gen.specs.Generated.{gen_device, gen_devices, gen_hosts, gen_link, gen_links, gen_network, gen_router, gen_routers, gen_transactions};

use crate::draws::base;
use crate::generator::Generator;
use crate::scripts::script;
use sb_flow::{Bundle, DevicePlan, HostPlan, LinkRow, Place, RouterPlan};
use sb_packet::{Bytes, Name};
use std::alloc::{AllocError, Global};

/// The name that a text is.
fn name(text: &[u8]) -> Name
    requires { IsTrue (is_name text.now) }
    ensures { result ≡ text.now }
{
    Name::new(text).unwrap()
}

/// The next host, whose script is drawn.
fn host(
    alloc: Global,
    name: Name,
    id: u8,
    generator: &mut Generator,
) -> Result<HostPlan, AllocError>
    ensures host { IfOk result (λ host. host_of host
        ≡ record { name = name; id = id; qos = 0; prot = 0; script = gen_transactions generator.old.state 0 2048 }) }
    ensures state { OnOk result (generator.new.state ≡ state_after generator.old.state 12288) }
{
    let script = script(alloc, generator)?;
    Ok(HostPlan {
        name,
        id,
        qos: 0,
        prot: 0,
        script,
    })
}

/// The four hosts, whose scripts are drawn one after another.
fn hosts(alloc: Global, number: u32) -> Result<Vec<HostPlan>, AllocError>
    ensures { IfOk result (λ hosts. map host_of hosts.items ≡ gen_hosts number) }
{
    let mut generator = Generator::new(number);
    let first = host(alloc, name(b"c0"), 0, &mut generator)?;
    let second = host(alloc, name(b"c1"), 1, &mut generator)?;
    let third = host(alloc, name(b"c2"), 2, &mut generator)?;
    let fourth = host(alloc, name(b"c3"), 3, &mut generator)?;
    Ok(Vec::from_array(alloc, [first, second, third, fourth])?)
}

/// A router, with the links that lead on to the four devices.
fn router(
    name: Name,
    first: Option<u8>,
    second: Option<u8>,
    third: Option<u8>,
    fourth: Option<u8>,
) -> RouterPlan
    ensures { net_router_of 4 result ≡ gen_router name (first ∷ second ∷ third ∷ fourth ∷ []) }
{
    let mut routes = [None; 32];
    routes[0] = first;
    routes[1] = second;
    routes[2] = third;
    routes[3] = fourth;
    RouterPlan {
        name,
        side: 0,
        routes,
    }
}

/// The three routers: the first leads on to the others, and each of these to two devices.
fn routers(alloc: Global) -> Result<Vec<RouterPlan>, AllocError>
    ensures { IfOk result (λ routers. map (net_router_of 4) routers.items ≡ gen_routers) }
{
    let first = router(name(b"r0"), Some(4), Some(4), Some(5), Some(5));
    let second = router(name(b"r1"), Some(6), Some(7), None, None);
    let third = router(name(b"r2"), None, None, Some(8), Some(9));
    Ok(Vec::from_array(alloc, [first, second, third])?)
}

/// A device, by its number from 0 to 3.
fn device(alloc: Global, name: Name, number: u32) -> DevicePlan
    requires { number ≤ 3 }
    ensures { device_of result ≡ gen_device number name }
{
    DevicePlan {
        name,
        base: base(number),
        pages: 16,
        readonly: false,
        image: Bytes::new(Vec::new(alloc)),
    }
}

/// The four devices.
fn devices(alloc: Global) -> Result<Vec<DevicePlan>, AllocError>
    ensures { IfOk result (λ devices. map device_of devices.items ≡ gen_devices) }
{
    let devices = [
        device(alloc, name(b"m0"), 0),
        device(alloc, name(b"m1"), 1),
        device(alloc, name(b"m2"), 2),
        device(alloc, name(b"m3"), 3),
    ];
    Ok(Vec::from_array(alloc, devices)?)
}

/// A link, with room for eight items on each ring.
fn link(name: Name, from: Place, to: Place, width: u8) -> LinkRow
    ensures { link_of result ≡ gen_link name (place_of from) (place_of to) width }
{
    LinkRow {
        name,
        from,
        to,
        width,
        capacity: 8,
    }
}

/// The ten links.
fn links(alloc: Global) -> Result<Vec<LinkRow>, AllocError>
    ensures { IfOk result (λ links. map link_of links.items ≡ gen_links) }
{
    let links = [
        link(name(b"l0"), Place::Host(0), Place::Router(0), 32),
        link(name(b"l1"), Place::Host(1), Place::Router(0), 16),
        link(name(b"l2"), Place::Host(2), Place::Router(0), 32),
        link(name(b"l3"), Place::Host(3), Place::Router(0), 16),
        link(name(b"l4"), Place::Router(0), Place::Router(1), 16),
        link(name(b"l5"), Place::Router(0), Place::Router(2), 8),
        link(name(b"l6"), Place::Router(1), Place::Device(0), 32),
        link(name(b"l7"), Place::Router(1), Place::Device(1), 8),
        link(name(b"l8"), Place::Router(2), Place::Device(2), 16),
        link(name(b"l9"), Place::Router(2), Place::Device(3), 8),
    ];
    Ok(Vec::from_array(alloc, links)?)
}

/// The bundle that a number makes, as work to measure by: four hosts with 2,048 random transactions each, three routers, four
/// devices, and links of 8 to 32 bytes. This project's own.
///
/// # Errors
///
/// `AllocError` where there isn't enough memory.
pub fn gen_bundle(alloc: Global, number: u32) -> Result<Bundle, AllocError>
    ensures network { IfOk result (λ bundle. network_of bundle ≡ gen_network number) }
{
    let hosts = hosts(alloc, number)?;
    let routers = routers(alloc)?;
    let devices = devices(alloc)?;
    let links = links(alloc)?;
    Ok(Bundle {
        hosts,
        routers,
        devices,
        links,
        wire: None,
    })
}
