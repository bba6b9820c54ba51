//! A network run to its end: one host, one router and one device.

ghost use Rattle.std.specs.Prelude.{◌≡◌, ◌<◌, [], ◌∷◌, IfOk, length, vec_len};
ghost use Rattle.sb_flow.specs.NetworkOf.{network_of};
ghost use Rattle.sb_member.specs.Joints.{IsJoined};
ghost use Rattle.sb_member.specs.declared.member.Member.TheVariants as members;
ghost use Rattle.sb_tests.specs.Lines.{sample_joints};
ghost use Rattle.sb_tests.specs.Samples.{sample};

use crate::network::{device_at, host_at, link, router_at};
use crate::sample::{bundle, forty};
use sb_device::Device;
use sb_drive::{Group, round_serial};
use sb_flow::{Bundle, Paths};
use sb_host::Host;
use sb_link::{Fabric, MeetFabric, SerialFabric, Turn};
use sb_member::{Joint, Member, meet_rings};
use sb_packet::{Code, TxnState};
use sb_router::Router;
use std::alloc::{AllocError, Global};
use std::slice;
use std::test::Fail;

/// More rounds than the run takes.
const ROUNDS: u32 = 100;

/// Where the rings stand: the host is node 0, the router node 1 and the device node 2. At the router requests come first.
fn joints() -> [Joint; 4]
    ensures { result ≡ sample_joints }
{
    let joint = |from, out, to, into| Joint {
        from,
        out,
        to,
        into,
    };
    [
        joint(0, 0, 1, 0),
        joint(1, 1, 0, 0),
        joint(1, 0, 2, 0),
        joint(2, 0, 1, 1),
    ]
}

/// Rounds until no node moved, and whether it came to that: each node takes its turn, and then the ends of each ring meet.
fn run<F: MeetFabric>(group: &mut Group<Member<F>>) -> bool
    requires some { 0 < vec_len group.old.nodes }
    requires joined { IsJoined sample_joints group.old.nodes.items }
    ensures joined { IsJoined sample_joints group.new.nodes.items }
{
    let joints = joints();
    for number in 0..ROUNDS {
        if !round_serial(group, 0, number) {
            return true;
        }
        meet_rings(slice::from_mut(group), &joints);
    }
    false
}

/// The three nodes, in the order of their numbers.
fn in_line<F: Fabric>(
    alloc: Global,
    host: Host<F>,
    router: Router<F>,
    device: Device<F>,
) -> Result<Vec<Member<F>>, AllocError>
    ensures nodes { IfOk result (λ nodes. nodes.items ≡ members.Host host ∷ members.Router router ∷ members.Device device ∷ []) }
    ensures count { IfOk result (λ nodes. vec_len nodes ≡ 3) }
{
    let mut nodes = Vec::new(alloc);
    nodes.push(Member::Host(host))?;
    nodes.push(Member::Router(router))?;
    nodes.push(Member::Device(device))?;
    Ok(nodes)
}

/// The nodes at their links.
fn nodes_of<F: Fabric>(
    alloc: Global,
    fabric: &mut F,
    bundle: &Bundle,
) -> Result<Group<Member<F>>, AllocError>
    requires network { network_of bundle.now ≡ sample }
    requires new { F.made fabric.old ≡ [] }
    ensures joined { IfOk result (λ group. IsJoined sample_joints group.nodes.items) }
    ensures count { IfOk result (λ group. vec_len group.nodes ≡ 3) }
{
    let paths = Paths::new(alloc, bundle)?;
    let near_down = paths.plan(bundle, 0);
    let near_up = paths.plan(bundle, 1);
    let far_down = paths.plan(bundle, 2);
    let far_up = paths.plan(bundle, 3);
    let (host_leg, leg_in) = link(alloc, fabric, 0, &near_down, &near_up)?;
    let (leg_out, device_leg) = link(alloc, fabric, 1, &far_down, &far_up)?;
    let host = host_at(alloc, bundle, host_leg)?;
    let device = device_at(alloc, device_leg)?;
    let router = router_at(alloc, bundle, &paths, leg_in, leg_out)?;
    let nodes = in_line(alloc, host, router, device)?;
    let last = Vec::from_array(alloc, [Turn::Moved; 3])?;
    Ok(Group {
        nodes,
        last,
        moved: false,
    })
}

/// How far each transaction has come.
fn states<F: Fabric>(host: &Host<F>) -> [TxnState; 7]
    requires lines { length host.now.transactions.asked.lines ≡ 7 }
{
    [
        host.state(0),
        host.state(1),
        host.state(2),
        host.state(3),
        host.state(4),
        host.state(5),
        host.state(6),
    ]
}

/// What was answered to each transaction.
fn bodies<'a, F: Fabric>(host: &'a Host<F>) -> [&'a [u8]; 7]
    requires lines { length host.now.transactions.asked.lines ≡ 7 }
{
    [
        host.body(0),
        host.body(1),
        host.body(2),
        host.body(3),
        host.body(4),
        host.body(5),
        host.body(6),
    ]
}

/// A network is run to its end: each node is done, each transaction ends as it must, the device has served all packets,
/// and its page has what was written.
#[test]
fn whole_run(rt: HostRuntime) -> Result<(), Fail> {
    let bundle = bundle(rt.alloc())?;
    let mut fabric = SerialFabric::new(rt.alloc());
    let mut group = nodes_of(rt.alloc(), &mut fabric, &bundle)?;
    assert!(rt; run(&mut group));
    assert_eq!(rt; group.last.as_slice(), [Turn::Done; 3].as_slice());
    let [
        Member::Host(host),
        Member::Router(_),
        Member::Device(device),
    ] = group.nodes.as_slice()
    else {
        return Err("a host, a router and a device")?;
    };
    if host.count() != 7 {
        return Err("seven transactions")?;
    }
    let ok = TxnState::Answered { code: Code::Ok };
    let unreached = TxnState::Answered { code: Code::NetErr };
    assert_eq!(rt;
        states(host),
        [ok, ok, TxnState::Posted, ok, unreached, ok, ok]
    );
    let forty = forty();
    let answers: [&[u8]; 7] = [
        &[],
        &forty,
        &[],
        &[1, 2, 3, 4],
        &[0; 16],
        &[0, 3, 3, 4],
        &[9],
    ];
    assert_eq!(rt; bodies(host), answers);
    // Two packets each of the first two, and one of each but the fifth.
    assert_eq!(rt; device.journal().len(), 8);
    let mut image = Vec::from_array(rt.alloc(), [0u8; 4096])?;
    image[64..104].copy_from_slice(&forty);
    image[64..66].copy_from_slice(&[0, 3]);
    image[4095] = 9;
    assert_eq!(rt; device.image(), image.as_slice());
    Ok(())
}
