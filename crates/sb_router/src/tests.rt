//! A router between two hosts and two devices, on one thread.

ghost use Rattle.std.specs.Prelude.{◌≡◌, ◌≤◌, ◌<◌, ◌+◌, ◌*◌, All, IfOk, IsSome, [], ◌∷◌, length};
ghost use Rattle.sb_flow.specs.NetworkOf.{network_of};
ghost use Rattle.sb_flow.specs.Tables.{paths_of};
ghost use Rattle.sb_flow.specs.Rings.{ring_link};
ghost use Rattle.sb_port.specs.Ports.{fresh_port};
ghost use Rattle.sb_router.specs.Lanes.{IsFreshPair};
ghost use Rattle.sb_router.specs.Routers.{IsWholeRouter, router_port, router_ports};
ghost use Rattle.sb_router.specs.Samples.{crossing as crossing_network};

use crate::router::Router;
use crate::sample::crossing;
use sb_drive::Node;
use sb_flow::{Bundle, Paths};
use sb_link::{Cause, Fabric, Pop, RxEnd, SerialFabric, Turn, TxEnd};
use sb_packet::{Cmd, Item, Op, Packet};
use sb_port::{InLeg, OutLeg, OutPort};
use std::alloc::{AllocError, Global};
use std::test::Fail;

/// What a router answers in its turns, and what comes out of one of its rings after each.
#[derive(Drop)]
struct Seen {
    turns: Vec<Turn>,
    items: Vec<Option<Item>>,
}

// what goes with a packet of one word or two, which may end its transaction
fn words(op: Op, host: u8, count: u8, eom: bool) -> Cmd
    requires host { host ≤ 31 }
    requires some { 1 ≤ count }
    requires few { count ≤ 2 }
    ensures op { result.op ≡ op }
    ensures size { result.size ≡ 3 }
    ensures len { result.len + 1 ≡ count }
    ensures host { result.host ≡ host }
{
    Cmd {
        op,
        size: 3,
        len: count - 1,
        qos: 0,
        prot: 0,
        eom,
        eof: false,
        ex: false,
        tail: 0,
        host,
    }
}

// what goes with a packet of one word
fn word(op: Op, host: u8) -> Cmd
    requires host { host ≤ 31 }
    ensures op { result.op ≡ op }
    ensures size { result.size ≡ 3 }
    ensures len { result.len ≡ 0 }
    ensures host { result.host ≡ host }
{
    words(op, host, 1, true)
}

// the first host reads two words of the second device: the packet of the first, that of the second, and one of both
fn first_part() -> Packet {
    Packet {
        cmd: words(Op::ReqRd, 5, 1, false),
        dst: 8192,
        src: 5 << 40,
        body: [0; 32],
    }
}

fn second_part() -> Packet {
    Packet {
        cmd: words(Op::ReqRd, 5, 1, true),
        dst: 8200,
        src: (5 << 40) + 8,
        body: [0; 32],
    }
}

fn both_parts() -> Packet {
    Packet {
        cmd: words(Op::ReqRd, 5, 2, true),
        dst: 8192,
        src: 5 << 40,
        body: [0; 32],
    }
}

// a host reads the first word of a device
fn request(host: u8, device: u8) -> Packet
    requires host { host ≤ 31 }
    requires device { device ≤ 1 }
{
    Packet {
        cmd: word(Op::ReqRd, host),
        dst: (u64::from(device) + 1) * 4096,
        src: u64::from(host) << 40,
        body: [0; 32],
    }
}

// the device answers with a byte in front
fn answer(host: u8, device: u8, byte: u8) -> Packet
    requires host { host ≤ 31 }
    requires device { device ≤ 1 }
{
    let mut body = [0; 32];
    body[0] = byte;
    Packet {
        cmd: word(Op::RespRd, host),
        dst: u64::from(host) << 40,
        src: (u64::from(device) + 1) * 4096,
        body,
    }
}

// what a host asks comes out
fn asked(host: u8, device: u8) -> Option<Item>
    requires host { host ≤ 31 }
    requires device { device ≤ 1 }
{
    Some(Item::Packet(request(host, device)))
}

// what a device answers comes out
fn told(host: u8, device: u8, byte: u8) -> Option<Item>
    requires host { host ≤ 31 }
    requires device { device ≤ 1 }
{
    Some(Item::Packet(answer(host, device, byte)))
}

// sends packets and a Close over a ring, and hands them over
fn send<F: Fabric>(tx: F::Tx, rx: &mut F::Rx, packets: &[Packet])
    requires unsent { F.Tx.sent tx ≡ [] }
    requires ring { F.Tx.mark tx ≡ F.Rx.mark rx.old }
    ensures received { F.Rx.received rx.new ≡ F.Rx.received rx.old }
{
    let mut port = OutPort::new(tx);
    for packet in packets {
        if port.ready() && port.passes(packet) {
            port.offer(packet);
        }
        let _ = port.turn(false);
    }
    port.close();
    let _ = port.turn(false);
    F::hand(port.end(), rx);
}

// both ends of a ring of the network, of which the fabric has made those of lower numbers
fn ring<F: Fabric>(
    alloc: Global,
    fabric: &mut F,
    bundle: &Bundle,
    paths: &Paths,
    ring: u16,
) -> Result<(F::Tx, F::Rx), AllocError>
    requires made { paths.now ≡ paths_of (network_of bundle.now) }
    requires network { network_of bundle.now ≡ crossing_network }
    requires there { IsSome (ring_link crossing_network ring) }
    requires before { All (λ plan. plan.ring < ring) (F.made fabric.old) }
    ensures after { IfOk result (λ ends. All (λ plan. plan.ring < ring + 1) (F.made fabric.new)) }
    ensures unsent { IfOk result (λ ends. F.Tx.sent ends.0 ≡ []) }
    ensures unreceived { IfOk result (λ ends. F.Rx.received ends.1 ≡ []) }
    ensures marks { IfOk result (λ ends. F.Tx.mark ends.0 ≡ F.Rx.mark ends.1) }
{
    let plan = paths.plan(bundle, ring);
    fabric.make(alloc, &plan)
}

// a link that leads to the router, over which packets and a Close were sent; and the end at which answers come out
fn in_leg<F: Fabric>(
    alloc: Global,
    fabric: &mut F,
    bundle: &Bundle,
    paths: &Paths,
    link: u8,
    packets: &[Packet],
) -> Result<(InLeg<F>, F::Rx), AllocError>
    requires made { paths.now ≡ paths_of (network_of bundle.now) }
    requires network { network_of bundle.now ≡ crossing_network }
    requires link { link < 4 }
    requires before { All (λ plan. plan.ring < 2 * link) (F.made fabric.old) }
    ensures after { IfOk result (λ leg. All (λ plan. plan.ring < 2 * link + 2) (F.made fabric.new)) }
    ensures fresh { IfOk result (λ leg. IsFreshPair F.Tx.TxEnd F.Rx.RxEnd leg.0.answers leg.0.requests) }
    ensures marks { IfOk result (λ leg. F.Tx.mark leg.0.answers ≡ F.Rx.mark leg.1) }
{
    let number = u16::from(link) * 2;
    let (tx, mut requests) = ring(alloc, fabric, bundle, paths, number)?;
    let (answers, far) = ring(alloc, fabric, bundle, paths, number + 1)?;
    send::<F>(tx, &mut requests, packets);
    let leg = InLeg {
        link,
        requests,
        answers,
    };
    Ok((leg, far))
}

// a link that leads on from the router, over which answers and a Close were sent; and the end at which requests come out
fn out_leg<F: Fabric>(
    alloc: Global,
    fabric: &mut F,
    bundle: &Bundle,
    paths: &Paths,
    link: u8,
    packets: &[Packet],
) -> Result<(OutLeg<F>, F::Rx), AllocError>
    requires made { paths.now ≡ paths_of (network_of bundle.now) }
    requires network { network_of bundle.now ≡ crossing_network }
    requires link { link < 4 }
    requires before { All (λ plan. plan.ring < 2 * link) (F.made fabric.old) }
    ensures after { IfOk result (λ leg. All (λ plan. plan.ring < 2 * link + 2) (F.made fabric.new)) }
    ensures fresh { IfOk result (λ leg. IsFreshPair F.Tx.TxEnd F.Rx.RxEnd leg.0.requests leg.0.answers) }
    ensures marks { IfOk result (λ leg. F.Tx.mark leg.0.requests ≡ F.Rx.mark leg.1) }
{
    let number = u16::from(link) * 2;
    let (requests, far) = ring(alloc, fabric, bundle, paths, number)?;
    let (tx, mut answers) = ring(alloc, fabric, bundle, paths, number + 1)?;
    send::<F>(tx, &mut answers, packets);
    let leg = OutLeg {
        link,
        requests,
        answers,
    };
    Ok((leg, far))
}

// two of a kind
fn pair<L: Drop>(alloc: Global, first: L, second: L) -> Result<Vec<L>, AllocError>
    ensures items { IfOk result (λ both. both.items ≡ first ∷ second ∷ []) }
{
    let mut both = Vec::new(alloc);
    both.push(first)?;
    both.push(second)?;
    Ok(both)
}

// the router between the legs of two hosts and two devices
fn router<F: Fabric>(
    alloc: Global,
    bundle: &Bundle,
    paths: &Paths,
    first: InLeg<F>,
    second: InLeg<F>,
    third: OutLeg<F>,
    fourth: OutLeg<F>,
) -> Result<Router<F>, AllocError>
    requires made { paths.now ≡ paths_of (network_of bundle.now) }
    requires first { IsFreshPair F.Tx.TxEnd F.Rx.RxEnd first.answers first.requests }
    requires second { IsFreshPair F.Tx.TxEnd F.Rx.RxEnd second.answers second.requests }
    requires third { IsFreshPair F.Tx.TxEnd F.Rx.RxEnd third.requests third.answers }
    requires fourth { IsFreshPair F.Tx.TxEnd F.Rx.RxEnd fourth.requests fourth.answers }
    ensures whole { IfOk result (λ r. IsWholeRouter r) }
    ensures ports { IfOk result (λ r. router_ports r ≡ fresh_port F.Tx.TxEnd third.requests ∷ fresh_port F.Tx.TxEnd fourth.requests
        ∷ fresh_port F.Tx.TxEnd first.answers ∷ fresh_port F.Tx.TxEnd second.answers ∷ []) }
{
    let ins = pair(alloc, first, second)?;
    let outs = pair(alloc, third, fourth)?;
    let router = Router::new(alloc, 0, bundle, paths, ins, outs)?;
    Ok(router)
}

// takes out the next item
fn pop<U: RxEnd>(far: &mut U) -> Option<Item>
    ensures mark { U.mark far.new ≡ U.mark far.old }
{
    match far.try_pop() {
        Pop::Item(item) => Some(item),
        Pop::Empty { .. } => None,
    }
}

// hands over what the router sent by the port at a place, and takes out the next item
fn meet<F: Fabric>(router: &mut Router<F>, place: usize, far: &mut F::Rx) -> Option<Item>
    requires whole { IsWholeRouter router.old }
    requires within { place < length (router_ports router.old) }
    requires mark { (router_port router.old place).mark ≡ F.Rx.mark far.old }
    ensures whole { IsWholeRouter router.new }
    ensures within { length (router_ports router.new) ≡ length (router_ports router.old) }
    ensures mark { (router_port router.new place).mark ≡ F.Rx.mark far.new }
{
    F::hand(router.port(place).end(), far);
    pop(far)
}

// one turn of the router
fn take_turn<F: Fabric>(router: &mut Router<F>, place: usize, round: u32) -> Turn
    requires whole { IsWholeRouter router.old }
    ensures whole { IsWholeRouter router.new }
    ensures within { length (router_ports router.new) ≡ length (router_ports router.old) }
    ensures mark { (router_port router.new place).mark ≡ (router_port router.old place).mark }
{
    router.turn(round)
}

// turns the router six times, and takes out what comes by the port at a place after each turn
fn watch<F: Fabric>(
    alloc: Global,
    router: &mut Router<F>,
    place: usize,
    far: &mut F::Rx,
) -> Result<Seen, AllocError>
    requires whole { IsWholeRouter router.old }
    requires within { place < length (router_ports router.old) }
    requires mark { (router_port router.old place).mark ≡ F.Rx.mark far.old }
{
    let mut turns = Vec::new(alloc);
    let mut items = Vec::new(alloc);
    for round in 0..6 {
        turns.push(take_turn(router, place, round))?;
        items.push(meet(router, place, far))?;
    }
    Ok(Seen { turns, items })
}

// makes the network's rings and its router, and watches one of the rings by which it sends, while these packets come by
// each of its links
fn see<F: Fabric>(
    alloc: Global,
    fabric: &mut F,
    ring: u16,
    first: &[Packet],
    second: &[Packet],
    third: &[Packet],
    fourth: &[Packet],
) -> Result<Seen, Fail>
    requires none { F.made fabric.old ≡ [] }
{
    let bundle = crossing(alloc)?;
    let paths = Paths::new(alloc, &bundle)?;
    let (first, mut to_first) = in_leg(alloc, fabric, &bundle, &paths, 0, first)?;
    let (second, mut to_second) = in_leg(alloc, fabric, &bundle, &paths, 1, second)?;
    let (third, mut to_third) = out_leg(alloc, fabric, &bundle, &paths, 2, third)?;
    let (fourth, mut to_fourth) = out_leg(alloc, fabric, &bundle, &paths, 3, fourth)?;
    let mut router = router::<F>(alloc, &bundle, &paths, first, second, third, fourth)?;
    let seen = match ring {
        4 => watch(alloc, &mut router, 0, &mut to_third)?,
        6 => watch(alloc, &mut router, 1, &mut to_fourth)?,
        1 => watch(alloc, &mut router, 2, &mut to_first)?,
        _ => watch(alloc, &mut router, 3, &mut to_second)?,
    };
    Ok(seen)
}

/// The requests of both hosts for one device come at once: that of the ring of the lower number goes first, and the
/// other behind it. What was offered last to a port is held for merging as long as something comes, and goes out with the
/// Close. A second request of the first host at this device is beyond the ring's budget, and is dropped. So it is with the
/// answers of both devices to one host, and a Close goes out once both rings of that direction gave theirs.
#[test]
fn each_flow_goes_its_way(rt: HostRuntime) -> Result<(), Fail> {
    let none: Option<Item> = None;
    let close = Some(Item::Close);
    let first = [request(5, 0), request(5, 1), request(5, 0)];
    let second = [request(2, 0)];
    let third = [answer(5, 0, 1), answer(2, 0, 2)];
    let fourth = [answer(5, 1, 3)];
    for (ring, items) in [
        // requests for the first device, and for the second
        (4, [asked(5, 0), none, none, asked(2, 0), close, none]),
        (6, [none, none, none, asked(5, 1), close, none]),
        // answers to the first host, and to the second
        (1, [told(5, 0, 1), none, told(5, 1, 3), close, none, none]),
        (3, [none, none, told(2, 0, 2), close, none, none]),
    ] {
        let mut fabric = SerialFabric::new(rt.alloc());
        let seen = see(
            rt.alloc(),
            &mut fabric,
            ring,
            &first,
            &second,
            &third,
            &fourth,
        )?;
        assert!(rt; seen.items.as_slice() == items.as_slice(), "ring {ring}");
        let turns = [
            Turn::Moved,
            Turn::Moved,
            Turn::Moved,
            Turn::Moved,
            Turn::Moved,
            Turn::Done,
        ];
        assert_eq!(rt; seen.turns.as_slice(), turns.as_slice(), "ring {ring}");
    }
    Ok(())
}

/// A read of two words comes over a link of 8 bytes in two packets, and goes on over one of 32 bytes in one.
#[test]
fn parts_are_joined(rt: HostRuntime) -> Result<(), Fail> {
    let none: Option<Item> = None;
    let both = Some(Item::Packet(both_parts()));
    let close = Some(Item::Close);
    let mut fabric = SerialFabric::new(rt.alloc());
    let parts = [first_part(), second_part()];
    let seen = see(rt.alloc(), &mut fabric, 6, &parts, &[], &[], &[])?;
    let items = [none, none, both, close, none, none];
    assert!(rt; seen.items.as_slice() == items.as_slice());
    Ok(())
}
