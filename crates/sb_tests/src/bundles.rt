//! Runs of `replay` and `run`, from the text of a bundle to the report.

ghost use Rattle.std.specs.Prelude.{◌<◌};

use crate::calls::{PIECES, call, written};
use crate::example::{EXAMPLE, EXAMPLE_REPORT, NARROW_EXAMPLE};
use crate::rendezvous::Rendezvous;
use crate::watched::{Pushes, Watched};
use sb_drive::FreeGate;
use sb_io::{ByteSink, ByteSource, CleanSource};
use sb_link::SerialFabric;
use sb_ring::RingFabric;
use std::alloc::{AllocError, Global};
use std::test::Fail;
use std::thread::Threads;

// orders in which nodes take turns
const ORDERS: [&str; 17] = [
    "replay --order 0",
    "replay --order 1",
    "replay --order 2",
    "replay --order 3",
    "replay --order 4",
    "replay --order 5",
    "replay --order 6",
    "replay --order 7",
    "replay --order 8",
    "replay --order 9",
    "replay --order 10",
    "replay --order 11",
    "replay --order 12",
    "replay --order 13",
    "replay --order 14",
    "replay --order 15",
    "replay --order 4294967295",
];

// numbers of workers
const WORKERS: [&str; 5] = [
    "run",
    "run --workers 1",
    "run --workers 2",
    "run --workers=4",
    "run --workers 016",
];

// the example as it is and with narrow links, and how many packets are served of it at most: where none is cut, and by a
// packet a word
const EXAMPLES: [(&str, usize); 2] = [(EXAMPLE, 9), (NARROW_EXAMPLE, 18)];

// one host that writes a byte, and its report
const ONE_WRITE: &str =
    r#"{"version":1,"hosts":[{"name":"cpu","id":0,"script":["wr 0x10000 0 09"]}],"routers":[{"name":"hub","routes":{"ram":"down"}}],"devices":[{"name":"ram","base":"0x10000","pages":1}],"links":[{"name":"up","from":"cpu","to":"hub","width":32,"capacity":1},{"name":"down","from":"hub","to":"ram","width":32,"capacity":1}]}"#;

const ONE_WRITE_REPORT: &str =
    "sb 1\nhost cpu 1\nt 0 ok -\ndevice ram 1\nm 00000 0900000000000000000000000000000000000000000000000000000000000000\nend\n";

// a host at a narrow link, and a memory at a wide one
const WIDENING: &str =
    r#"{"version":1,"hosts":[{"name":"cpu","id":0,"script":["wr 0x10000 3 000102030405060708090a0b0c0d0e0f101112131415161718191a1b1c1d1e1f","rd 0x10000 3 4"]}],"routers":[{"name":"hub","routes":{"ram":"down"}}],"devices":[{"name":"ram","base":"0x10000","pages":1}],"links":[{"name":"up","from":"cpu","to":"hub","width":8,"capacity":8},{"name":"down","from":"hub","to":"ram","width":32,"capacity":8}]}"#;

const WIDENING_REPORT: &str =
    "sb 1\nhost cpu 2\nt 0 ok -\nt 1 ok 000102030405060708090a0b0c0d0e0f101112131415161718191a1b1c1d1e1f\ndevice ram 1\nm 00000 000102030405060708090a0b0c0d0e0f101112131415161718191a1b1c1d1e1f\nend\n";

// two hosts that add to one counter, of which one then writes beside it
const TWO_HOSTS: &str =
    r#"{"version":1,"hosts":[{"name":"cpu","id":0,"script":["add 0x10000 2 01000000","add 0x10000 2 01000000"]},{"name":"dma","id":7,"qos":3,"prot":1,"script":["add 0x10000 2 01000000","","wp 0x10040 3 00112233445566778899aabbccddeeff"]}],"routers":[{"name":"hub","routes":{"ram":"down"}}],"devices":[{"name":"ram","base":"0x10000","pages":16}],"links":[{"name":"cpu","from":"cpu","to":"hub","width":32,"capacity":4},{"name":"dma","from":"dma","to":"hub","width":32,"capacity":16},{"name":"down","from":"hub","to":"ram","width":32,"capacity":4}]}"#;

// its report where the first host adds twice before the second one adds, and where the second one adds first
const FIRST_HOST_FIRST: &str =
    "sb 1\nhost cpu 2\nt 0 ok 00000000\nt 1 ok 01000000\nhost dma 2\nt 0 ok 02000000\nt 1 posted -\ndevice ram 16\nm 00000 0300000000000000000000000000000000000000000000000000000000000000\nm 00040 00112233445566778899aabbccddeeff00000000000000000000000000000000\nend\n";

const SECOND_HOST_FIRST: &str =
    "sb 1\nhost cpu 2\nt 0 ok 01000000\nt 1 ok 02000000\nhost dma 2\nt 0 ok 00000000\nt 1 posted -\ndevice ram 16\nm 00000 0300000000000000000000000000000000000000000000000000000000000000\nm 00040 00112233445566778899aabbccddeeff00000000000000000000000000000000\nend\n";

// whether a call came to the example's report, by at least nine packets and as many as it may have
fn is_example(ended: (u8, usize), most: usize, text: &[u8]) -> bool {
    let (status, packets) = ended;
    status == 0 && packets >= 9 && packets <= most && text == EXAMPLE_REPORT.as_bytes()
}

/// The example's report is the same in whatever order the nodes take turns, and however wide its links are.
#[test]
fn orders(rt: HostRuntime) -> Result<(), Fail> {
    for (bundle, most) in EXAMPLES {
        for line in ORDERS {
            let mut fabric = SerialFabric::new(rt.alloc());
            let (ended, sink) = written(&rt, rt.alloc(), line, bundle, &mut fabric, &FreeGate)?;
            assert!(rt; is_example(ended, most, sink.as_slice()), "{line}");
        }
    }
    Ok(())
}

// what `check` says of a report of a bundle
fn checked<R: Threads + Sync>(
    rt: &R,
    alloc: Global,
    bundle: &str,
    report: &[u8],
) -> Result<((u8, usize), ByteSink), AllocError> {
    let mut evidence = Vec::new(alloc);
    evidence.extend_from_slice(bundle.as_bytes())?;
    evidence.extend_from_slice(b"\n%report\n")?;
    evidence.extend_from_slice(report)?;
    let mut source = CleanSource::new(alloc, evidence.as_slice(), 4096)?;
    let mut sink = ByteSink::new(alloc, 4096, 4096, &[])?;
    let mut fabric = SerialFabric::new(alloc);
    let ended = call(
        rt,
        alloc,
        "check",
        &mut source,
        &mut sink,
        &mut fabric,
        &FreeGate,
    )?;
    Ok((ended, sink))
}

// a replay of two hosts over serial rings: how it ended, and what was written
fn replay_two_hosts<R: Threads + Sync>(
    rt: &R,
    alloc: Global,
    line: &str,
) -> Result<((u8, usize), ByteSink), AllocError> {
    let mut fabric = SerialFabric::new(alloc);
    written(rt, alloc, line, TWO_HOSTS, &mut fabric, &FreeGate)
}

/// Which of two hosts comes first at a counter depends on the order. Either is lawful, and an order comes to the same
/// report, with its history, each time.
#[test]
fn orders_of_two_hosts(rt: HostRuntime) -> Result<(), Fail> {
    for (line, with_history, report) in [
        (
            "replay --order 1",
            "replay --order 1 --history",
            FIRST_HOST_FIRST,
        ),
        (
            "replay --order 10",
            "replay --order 10 --history",
            SECOND_HOST_FIRST,
        ),
    ] {
        let (ended, plain) = replay_two_hosts(&rt, rt.alloc(), line)?;
        assert_eq!(rt; ended, (0, 4), "{line}");
        assert_eq!(rt; plain.as_slice(), report.as_bytes(), "{line}");
        let (_, first) = replay_two_hosts(&rt, rt.alloc(), with_history)?;
        let (_, second) = replay_two_hosts(&rt, rt.alloc(), with_history)?;
        assert_eq!(rt; first.as_slice(), second.as_slice(), "{line}");
        let (ended, said) = checked(&rt, rt.alloc(), TWO_HOSTS, first.as_slice())?;
        assert_eq!(rt; ended, (0, 0), "{line}");
        assert_eq!(rt; said.as_slice(), b"yes\n".as_slice(), "{line}");
    }
    Ok(())
}

/// It is the same on threads, however many they are; with more workers than nodes some have none.
#[test]
fn workers(rt: HostRuntime) -> Result<(), Fail> {
    for (bundle, most) in EXAMPLES {
        for line in WORKERS {
            let mut fabric = RingFabric::new(rt.alloc());
            let (ended, sink) = written(&rt, rt.alloc(), line, bundle, &mut fabric, &FreeGate)?;
            assert!(rt; is_example(ended, most, sink.as_slice()), "{line}");
        }
    }
    Ok(())
}

/// One host writes 32 bytes over a link of 8 bytes to a router, which sends them on over a link of 32: it joins the four
/// packets that come to fewer. The memory is read back over the same links.
#[test]
fn joined_on_a_wide_link(rt: HostRuntime) -> Result<(), Fail> {
    let pushes = Pushes::counted();
    let mut fabric = Watched {
        inner: SerialFabric::new(rt.alloc()),
        watch: &pushes,
    };
    let (ended, sink) = written(&rt, rt.alloc(), "replay", WIDENING, &mut fabric, &FreeGate)?;
    assert_eq!(rt; ended.0, 0);
    assert_eq!(rt; sink.as_slice(), WIDENING_REPORT.as_bytes());
    // four parts of the write, and the read, which asks for 32 bytes in four parts too
    assert_eq!(rt; pushes.count(0), 8);
    assert!(rt; pushes.count(2) < 8);
    Ok(())
}

// what is written of a generated network
const GENERATED: &[u8] = b"gen 7\nhosts 4 transactions 8192\nwords 45584\nbytes 171413\ndone\n";

/// Two groups stand at the gate at once, in a run of a generated network on threads: only threads can do so.
#[test]
fn side_by_side(rt: HostRuntime) -> Result<(), Fail> {
    let gate = Rendezvous::new(100_000_000);
    let mut source = ByteSource::new(rt.alloc(), b"", 1, &[])?;
    let mut sink = ByteSink::new(rt.alloc(), 4096, 4096, &[])?;
    let mut fabric = RingFabric::new(rt.alloc());
    let (status, _) = call(
        &rt,
        rt.alloc(),
        "gen 7",
        &mut source,
        &mut sink,
        &mut fabric,
        &gate,
    )?;
    assert_eq!(rt; status, 0);
    assert_eq!(rt; sink.as_slice(), GENERATED);
    assert!(rt; gate.met());
    Ok(())
}

/// On one thread that doesn't come about, however long one waits.
#[test]
fn one_by_one(rt: HostRuntime) -> Result<(), Fail> {
    let gate = Rendezvous::new(1_000);
    let mut fabric = RingFabric::new(rt.alloc());
    let (ended, sink) = written(
        &rt,
        rt.alloc(),
        "run --workers 1",
        EXAMPLE,
        &mut fabric,
        &gate,
    )?;
    assert!(rt; is_example(ended, 9, sink.as_slice()));
    assert!(rt; !gate.met());
    Ok(())
}

/// A generated network is run, and its summary is of the network alone. Nothing is read: a source that would fail is not
/// asked.
#[test]
fn generated(rt: HostRuntime) -> Result<(), Fail> {
    let mut source = ByteSource::new(rt.alloc(), b"?", 1, &[0])?;
    let mut sink = ByteSink::new(rt.alloc(), 4096, 4096, &[])?;
    let mut fabric = RingFabric::new(rt.alloc());
    let (status, packets) = call(
        &rt,
        rt.alloc(),
        "gen 0000000007",
        &mut source,
        &mut sink,
        &mut fabric,
        &FreeGate,
    )?;
    assert_eq!(rt; status, 0);
    // each transaction is aimed at a device, and is one packet at least
    assert!(rt; packets >= 8_192);
    assert_eq!(rt; sink.as_slice(), GENERATED);
    Ok(())
}

// what the write ends with, where a call of the source or a call of the sink fails
fn replay<R: Threads + Sync>(
    rt: &R,
    alloc: Global,
    piece: usize,
    failing_read: u64,
    failing_write: u64,
) -> Result<((u8, usize), ByteSink), AllocError>
    requires piece { 0 < piece }
{
    let mut source = ByteSource::new(alloc, ONE_WRITE.as_bytes(), piece, &[failing_read])?;
    let mut sink = ByteSink::new(alloc, 4096, piece, &[failing_write])?;
    let mut fabric = SerialFabric::new(alloc);
    let ended = call(
        rt,
        alloc,
        "replay",
        &mut source,
        &mut sink,
        &mut fabric,
        &FreeGate,
    )?;
    Ok((ended, sink))
}

/// A read that fails ends the call with nothing written and nothing run.
#[test]
fn failing_reads(rt: HostRuntime) -> Result<(), Fail> {
    for piece in PIECES {
        // a read for each piece, and one that meets the end
        for read in 0..ONE_WRITE.len().div_ceil(piece) + 1 {
            let (ended, sink) = replay(&rt, rt.alloc(), piece, read as u64, u64::MAX)?;
            assert_eq!(rt; ended, (4, 0));
            assert!(rt; sink.as_slice().is_empty());
        }
    }
    Ok(())
}

/// A write that fails ends the call with a first part of the report written, and the whole run's journal.
#[test]
fn failing_writes(rt: HostRuntime) -> Result<(), Fail> {
    let report = ONE_WRITE_REPORT.as_bytes();
    for piece in PIECES {
        for write in 0..report.len().div_ceil(piece) {
            let (ended, sink) = replay(&rt, rt.alloc(), piece, u64::MAX, write as u64)?;
            assert_eq!(rt; ended, (5, 1));
            assert_eq!(rt; sink.as_slice(), &report[..write * piece]);
        }
    }
    Ok(())
}
