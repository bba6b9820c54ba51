//! Whole networks, from the text of their bundles to the journals of their runs.

ghost use Rattle.std.specs.Prelude.{◌≡◌, ◌≤◌, ◌<◌, ◌+◌, [], true, length};
ghost use Rattle.sb_net.specs.Settled.{transactions_at};

use crate::example::EXAMPLE;
use sb_drive::{FreeGate, Pace};
use sb_flow::Bundle;
use sb_link::{MeetFabric, SerialFabric};
use sb_net::{SettledNet, USUAL_PACE, build};
use sb_packet::{Code, Journal, TxnState};
use sb_ring::RingFabric;
use sb_topology::load;
use std::alloc::{AllocError, Global};
use std::test::Fail;
use std::thread::Threads;

// one host that reads 256 bytes of one memory, behind links with one place: of 8 bytes, and of 32
const NARROW: &str =
    r#"{"version":1,"hosts":[{"name":"cpu","id":0,"script":["rd 0x10000 3 32"]}],"routers":[{"name":"hub","routes":{"ram":"down"}}],"devices":[{"name":"ram","base":"0x10000","pages":1}],"links":[{"name":"up","from":"cpu","to":"hub","width":8,"capacity":1},{"name":"down","from":"hub","to":"ram","width":8,"capacity":1}]}"#;

const WIDE: &str =
    r#"{"version":1,"hosts":[{"name":"cpu","id":0,"script":["rd 0x10000 3 32"]}],"routers":[{"name":"hub","routes":{"ram":"down"}}],"devices":[{"name":"ram","base":"0x10000","pages":1}],"links":[{"name":"up","from":"cpu","to":"hub","width":32,"capacity":1},{"name":"down","from":"hub","to":"ram","width":32,"capacity":1}]}"#;

// the beginning, the middle and the end of a bundle with two hosts at one memory
const FIRST_HOST: &str = r#"{"version":1,"hosts":[{"name":"a","id":0,"script":["#;

const SECOND_HOST: &str = r#"]},{"name":"b","id":1,"script":["#;

const ONE_MEMORY: &str =
    r#"]}],"routers":[{"name":"hub","routes":{"ram":"down"}}],"devices":[{"name":"ram","base":"0x10000","pages":1}],"links":[{"name":"a","from":"a","to":"hub","width":32,"capacity":2},{"name":"b","from":"b","to":"hub","width":32,"capacity":2},{"name":"down","from":"hub","to":"ram","width":32,"capacity":2}]}"#;

// a run of a bundle on one thread, over the rings of a fabric: its journal, and what remains
fn run_over<F: MeetFabric>(
    alloc: Global,
    fabric: &mut F,
    bundle: &Bundle,
    order: u32,
) -> Result<(Journal, SettledNet), AllocError>
    requires unused { F.made fabric.old ≡ [] }
{
    let mut net = build(alloc, bundle, 1, fabric)?;
    let mut journal = Journal::new(alloc);
    journal.reserve(262_144)?;
    net.replay(order, &mut journal);
    let settled = net.settle(fabric);
    Ok((journal, settled))
}

// the same over serial rings
fn run(alloc: Global, bundle: &Bundle, order: u32) -> Result<(Journal, SettledNet), AllocError> {
    let mut fabric = SerialFabric::new(alloc);
    run_over(alloc, &mut fabric, bundle, order)
}

// whether that host has five transactions
fn has_five(settled: &SettledNet, host: u8) -> bool
    ensures yes { result ≡ true → (host < length settled.now.hosts) × (length (transactions_at settled.now host).asked.lines ≡ 5) }
{
    usize::from(host) < settled.host_count() && settled.transaction_count(host) == 5
}

fn states(settled: &SettledNet, host: u8) -> [TxnState; 5]
    requires host { host < length settled.now.hosts }
    requires lines { length (transactions_at settled.now host).asked.lines ≡ 5 }
{
    [
        settled.state(host, 0),
        settled.state(host, 1),
        settled.state(host, 2),
        settled.state(host, 3),
        settled.state(host, 4),
    ]
}

fn bodies<'a>(settled: &'a SettledNet, host: u8) -> [&'a [u8]; 5]
    requires host { host < length settled.now.hosts }
    requires lines { length (transactions_at settled.now host).asked.lines ≡ 5 }
{
    [
        settled.body(host, 0),
        settled.body(host, 1),
        settled.body(host, 2),
        settled.body(host, 3),
        settled.body(host, 4),
    ]
}

// a page that has these bytes at that place, and is zero elsewhere
fn page(alloc: Global, at: usize, bytes: &[u8]) -> Result<Vec<u8>, AllocError>
    requires room { at + length bytes.now ≤ 4_096 }
{
    let mut page = Vec::from_array(alloc, [0u8; 4096])?;
    page[at..at + bytes.len()].copy_from_slice(bytes);
    Ok(page)
}

/// Whatever the order of turns, each transaction that is aimed at a device is served once, and all of these are of one
/// packet: five of the first host's, and four of the second's five, one of which aims at no device. The hosts share no
/// byte, so that their answers, and what the memories have in the end, don't depend on who comes first.
#[test]
fn example_is_replayed(rt: HostRuntime) -> Result<(), Fail> {
    let Ok(bundle) = load(rt.alloc(), EXAMPLE.as_bytes()) else {
        return Err("the example is accepted")?;
    };
    let ok = TxnState::Answered { code: Code::Ok };
    let refused = TxnState::Answered { code: Code::DevErr };
    let unreached = TxnState::Answered { code: Code::NetErr };
    let counted: [u8; 32] = [
        0, 1, 2, 3, 4, 5, 6, 7, 8, 9, 10, 11, 12, 13, 14, 15, 16, 17, 18, 19, 20, 21, 22, 23, 24,
        25, 26, 27, 28, 29, 30, 31,
    ];
    let first: [&[u8]; 5] = [&[], &counted, &[], &[0xaa, 0xbb, 0xcc, 0xdd], &[0; 8]];
    let second: [&[u8]; 5] = [
        &[0; 4],
        &[],
        &[0xde, 0xad, 0xbe, 0xef],
        &[0; 4],
        &[0x78, 0x56, 0x34, 0x12],
    ];
    let m0 = page(rt.alloc(), 0, &counted)?;
    let m1 = page(rt.alloc(), 16, &[0xaa, 0xbb, 0xcc, 0xdd])?;
    let m2 = page(rt.alloc(), 0, &[1, 0, 0, 0, 0, 0, 0, 0, 0, 0, 0, 0x80])?;
    let rom = page(rt.alloc(), 0, &[0xde, 0xad, 0xbe, 0xef])?;
    for order in 0..16 {
        let (journal, settled) = run(rt.alloc(), &bundle, order)?;
        assert_eq!(rt; journal.entries().len(), 9);
        if !has_five(&settled, 0) || !has_five(&settled, 1) || settled.device_count() != 4 {
            return Err("two hosts with five transactions each, and four devices")?;
        }
        assert_eq!(rt; states(&settled, 0), [ok, ok, TxnState::Posted, ok, ok]);
        assert_eq!(rt; states(&settled, 1), [ok, refused, ok, unreached, ok]);
        assert_eq!(rt; bodies(&settled, 0), first);
        assert_eq!(rt; bodies(&settled, 1), second);
        assert_eq!(rt; settled.image(0), m0.as_slice());
        assert_eq!(rt; settled.image(1), m1.as_slice());
        assert_eq!(rt; settled.image(2), m2.as_slice());
        assert_eq!(rt; settled.image(3), rom.as_slice());
    }
    Ok(())
}

// whether two settled networks tell the same states, bodies and images of the example
fn tell_the_same(settled: &SettledNet, other: &SettledNet) -> bool {
    if settled.device_count() != 4 || other.device_count() != 4 {
        return false;
    }
    for host in 0..2 {
        if !has_five(settled, host) || !has_five(other, host) {
            return false;
        }
        if states(settled, host) != states(other, host)
            || bodies(settled, host) != bodies(other, host)
        {
            return false;
        }
    }
    for device in 0..4 {
        if settled.image(device) != other.image(device) {
            return false;
        }
    }
    true
}

/// Over the project's own rings the example has the same answers and memories as over serial ones. The ends of own rings
/// learn of each other within a round, too, so that a packet may be served in an earlier round.
#[test]
fn own_rings_do_the_same(rt: HostRuntime) -> Result<(), Fail> {
    let Ok(bundle) = load(rt.alloc(), EXAMPLE.as_bytes()) else {
        return Err("the example is accepted")?;
    };
    let mut rings = RingFabric::new(rt.alloc());
    let (journal, settled) = run_over(rt.alloc(), &mut rings, &bundle, 6)?;
    let (serial_journal, serial) = run(rt.alloc(), &bundle, 6)?;
    assert_eq!(rt; journal.entries().len(), serial_journal.entries().len());
    assert!(rt; tell_the_same(&settled, &serial));
    Ok(())
}

// a run of a bundle in 16 groups on so many threads, over own rings, at that pace: its journal, and what remains
fn run_at<R: Threads + Sync>(
    rt: &R,
    alloc: Global,
    bundle: &Bundle,
    workers: u32,
    pace: Pace,
) -> Result<(Journal, SettledNet), AllocError> {
    let mut fabric = RingFabric::new(alloc);
    let mut net = build(alloc, bundle, 16, &mut fabric)?;
    let mut journal = Journal::new(alloc);
    journal.reserve(262_144)?;
    net.run_at(rt, alloc, workers, pace, &FreeGate, &mut journal);
    let settled = net.settle(&mut fabric);
    Ok((journal, settled))
}

// the same at the usual pace, but that threads take part after one pass
fn run_on_threads<R: Threads + Sync>(
    rt: &R,
    alloc: Global,
    bundle: &Bundle,
    workers: u32,
) -> Result<(Journal, SettledNet), AllocError> {
    let at_once = Pace {
        alone: 1,
        ..USUAL_PACE
    };
    run_at(rt, alloc, bundle, workers, at_once)
}

/// The example's nine nodes, of whose sixteen groups seven have none, on one thread, two, four and sixteen: however the
/// threads go, the answers and the memories are those of a run on one thread.
#[test]
fn example_runs_on_threads(rt: HostRuntime) -> Result<(), Fail> {
    let Ok(bundle) = load(rt.alloc(), EXAMPLE.as_bytes()) else {
        return Err("the example is accepted")?;
    };
    let (serial_journal, serial) = run(rt.alloc(), &bundle, 0)?;
    for workers in [1, 2, 4, 16] {
        let (journal, settled) = run_on_threads(&rt, rt.alloc(), &bundle, workers)?;
        assert_eq!(rt;
            journal.entries().len(),
            serial_journal.entries().len(),
            "{workers} workers"
        );
        assert!(rt; tell_the_same(&settled, &serial), "{workers} workers");
    }
    Ok(())
}

/// A read of 256 bytes comes back as one answer over links of one place, as so many packets each way as these have room
/// for: 32 of 8 bytes, and 8 of 32.
#[test]
fn narrow_links_are_enough(rt: HostRuntime) -> Result<(), Fail> {
    for (text, packets) in [(NARROW, 32), (WIDE, 8)] {
        let Ok(bundle) = load(rt.alloc(), text.as_bytes()) else {
            return Err("the bundle is accepted")?;
        };
        let (journal, settled) = run(rt.alloc(), &bundle, 0)?;
        assert_eq!(rt; journal.entries().len(), packets);
        if settled.host_count() != 1 || settled.transaction_count(0) != 1 {
            return Err("one host with one transaction")?;
        }
        assert_eq!(rt; settled.state(0, 0), TxnState::Answered { code: Code::Ok });
        assert_eq!(rt; settled.body(0, 0), [0u8; 256].as_slice());
    }
    Ok(())
}

// a thousand lines that add one to the same word
fn add_lines(text: &mut String) -> Result<(), AllocError> {
    text.push_str(r#""add 0x10000 2 01000000""#)?;
    for _ in 1..1_000 {
        text.push_str(r#","add 0x10000 2 01000000""#)?;
    }
    Ok(())
}

// marks what each of a host's thousand transactions found; says whether each is a place, and was not marked yet
fn mark_found(settled: &SettledNet, host: u8, seen: &mut [bool]) -> bool
    requires host { host < length settled.now.hosts }
    requires lines { length (transactions_at settled.now host).asked.lines ≡ 1_000 }
{
    for index in 0..1_000 {
        let [low, high, 0, 0] = settled.body(host, index) else {
            return false;
        };
        let found = usize::from(*low) + 256 * usize::from(*high);
        if found >= seen.len() || seen[found] {
            return false;
        }
        seen[found] = true;
    }
    true
}

// whether two hosts added one to a word a thousand times each: it ended at 2,000, and what they found are the numbers
// before that, each once
fn counted(alloc: Global, journal: &Journal, settled: &SettledNet) -> Result<bool, AllocError> {
    if settled.host_count() != 2 || settled.device_count() != 1 {
        return Ok(false);
    }
    if settled.transaction_count(0) != 1_000 || settled.transaction_count(1) != 1_000 {
        return Ok(false);
    }
    let mut seen = [false; 2_000];
    let first = mark_found(settled, 0, &mut seen);
    let second = mark_found(settled, 1, &mut seen);
    let word = page(alloc, 0, &[0xd0, 0x07])?;
    let ended = settled.image(0) == word.as_slice();
    Ok(first && second && ended && journal.entries().len() == 2_000)
}

/// Two hosts add one to a word a thousand times each, on one thread and on four.
#[test]
fn two_hosts_count(rt: HostRuntime) -> Result<(), Fail> {
    let mut text = String::new(rt.alloc());
    text.push_str(FIRST_HOST)?;
    add_lines(&mut text)?;
    text.push_str(SECOND_HOST)?;
    add_lines(&mut text)?;
    text.push_str(ONE_MEMORY)?;
    if text.len() > 67_108_864 {
        return Err("no longer than a bundle may be")?;
    }
    let Ok(bundle) = load(rt.alloc(), text.as_bytes()) else {
        return Err("the bundle is accepted")?;
    };
    let (journal, settled) = run(rt.alloc(), &bundle, 5)?;
    assert!(rt; counted(rt.alloc(), &journal, &settled)?);
    let (journal, settled) = run_on_threads(&rt, rt.alloc(), &bundle, 4)?;
    assert!(rt; counted(rt.alloc(), &journal, &settled)?);
    Ok(())
}

/// Nothing that is promised of a run hangs on how long its rounds are: the example ends the same at the usual pace, where
/// each round is one pass, where a thread leaves at once when nothing moves, and where a group makes one sweep in a visit.
#[test]
fn every_pace_is_good(rt: HostRuntime) -> Result<(), Fail> {
    let Ok(bundle) = load(rt.alloc(), EXAMPLE.as_bytes()) else {
        return Err("the example is accepted")?;
    };
    let (_, serial) = run(rt.alloc(), &bundle, 0)?;
    let at_once = Pace {
        alone: 1,
        ..USUAL_PACE
    };
    let one_pass = Pace {
        passes: 1,
        ..at_once
    };
    let impatient = Pace {
        patience: 1,
        ..at_once
    };
    let one_sweep = Pace {
        sweeps: 1,
        ..at_once
    };
    for pace in [USUAL_PACE, one_pass, impatient, one_sweep] {
        for workers in [1, 4] {
            let (journal, settled) = run_at(&rt, rt.alloc(), &bundle, workers, pace)?;
            assert_eq!(rt; journal.entries().len(), 9, "{workers} workers");
            assert!(rt; tell_the_same(&settled, &serial), "{workers} workers");
        }
    }
    Ok(())
}
