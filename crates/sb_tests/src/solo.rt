//! Runs of `solo`.

use crate::blanks::Blanks;
use crate::calls::{PIECES, call};
use sb_drive::FreeGate;
use sb_io::{ByteSink, ByteSource, CleanSink, CleanSource, Sink, Source};
use sb_link::SerialFabric;
use std::alloc::{AllocError, Global};
use std::test::Fail;
use std::thread::Threads;

// scripts, what they end with, how many packets are served, and what is printed
const SCRIPTS: [(&str, u8, usize, &str); 8] = [
    // An empty script.
    ("", 0, 0, "sb 1\nhost host 0\ndevice mem 16\nend\n"),
    // A first write and read.
    (
        "wr 0x10 2 0102030405060708\nrd 0x10 2 2\n",
        0,
        2,
        "sb 1\nhost host 2\nt 0 ok -\nt 1 ok 0102030405060708\ndevice mem 16\nm 00000 0000000000000000000000000000000001020304050607080000000000000000\nend\n",
    ),
    // A write over the border of a page, and one up to it.
    (
        "wr 0xff8 3 00112233445566778899aabbccddeeff",
        3,
        0,
        "refused line 1 page\n",
    ),
    (
        "# up to a page's border\r\n\n\twr 0xff8 3 0011223344556677",
        0,
        1,
        "sb 1\nhost host 1\nt 0 ok -\ndevice mem 16\nm 00fe0 0000000000000000000000000000000000000000000000000011223344556677\nend\n",
    ),
    // A byte that wraps around.
    (
        "wr 0 0 01\nadd 0 0 ff\n",
        0,
        2,
        "sb 1\nhost host 2\nt 0 ok -\nt 1 ok 01\ndevice mem 16\nend\n",
    ),
    // The greater in two's complement, and without sign.
    (
        "wr 0 0 7f\nmax 0 0 80\nmaxu 0 0 80\n",
        0,
        3,
        "sb 1\nhost host 3\nt 0 ok -\nt 1 ok 7f\nt 2 ok 7f\ndevice mem 16\nm 00000 8000000000000000000000000000000000000000000000000000000000000000\nend\n",
    ),
    // Addresses of no device.
    (
        "rd 0x10000 1 2\nwp 0x10000 0 ff\n",
        0,
        0,
        "sb 1\nhost host 2\nt 0 neterr 00000000\nt 1 posted -\ndevice mem 16\nend\n",
    ),
    // A transaction of 40 bytes is two packets.
    (
        "rd 0x100 3 5",
        0,
        2,
        "sb 1\nhost host 1\nt 0 ok 00000000000000000000000000000000000000000000000000000000000000000000000000000000\ndevice mem 16\nend\n",
    ),
];

/// What `solo` ended with, and how many packets its memory stepped.
fn solo<R: Threads + Sync, S: Source, K: Sink>(
    rt: &R,
    alloc: Global,
    source: &mut S,
    sink: &mut K,
) -> Result<(u8, usize), AllocError> {
    let mut fabric = SerialFabric::new(alloc);
    call(rt, alloc, "solo", source, sink, &mut fabric, &FreeGate)
}

#[test]
fn scripts(rt: HostRuntime) -> Result<(), Fail> {
    for (script, status, packets, text) in SCRIPTS {
        for piece in PIECES {
            let mut source = ByteSource::new(rt.alloc(), script.as_bytes(), piece, &[])?;
            let mut sink = ByteSink::new(rt.alloc(), 4096, piece, &[])?;
            let ended = solo(&rt, rt.alloc(), &mut source, &mut sink)?;
            assert_eq!(rt; ended, (status, packets), "at {script}");
            assert_eq!(rt; sink.as_slice(), text.as_bytes(), "at {script}");
        }
    }
    Ok(())
}

#[test]
fn the_longest_scripts(rt: HostRuntime) -> Result<(), Fail> {
    let nothing = "sb 1\nhost host 0\ndevice mem 16\nend\n";
    let rows = [
        ("\n", 65536, "", 0, nothing),
        ("\n", 65536, "?", 3, "refused lines 65537\n"),
        ("wp 0x10000 0 00\n", 65536, "\n", 3, "refused lines 65537\n"),
        (
            "rd 0 0 256\n",
            1024,
            "rd 0 0 1",
            3,
            "refused words 262145\n",
        ),
    ];
    for (line, count, last, status, text) in rows {
        let mut script = Vec::new(rt.alloc());
        for _ in 0..count {
            script.extend_from_slice(line.as_bytes())?;
        }
        script.extend_from_slice(last.as_bytes())?;
        let mut source = CleanSource::new(rt.alloc(), script.as_slice(), 4096)?;
        let mut sink = ByteSink::new(rt.alloc(), 64, 64, &[])?;
        assert_eq!(rt; solo(&rt, rt.alloc(), &mut source, &mut sink)?, (status, 0));
        assert_eq!(rt; sink.as_slice(), text.as_bytes());
    }
    Ok(())
}

#[test]
fn failing_reads(rt: HostRuntime) -> Result<(), Fail> {
    let script = b"rd 0 0 1";
    for piece in PIECES {
        // a read for each piece, and one that meets the end
        for call in 0..script.len().div_ceil(piece) + 1 {
            let mut source = ByteSource::new(rt.alloc(), script, piece, &[call as u64])?;
            let mut sink = ByteSink::new(rt.alloc(), 4096, 4096, &[])?;
            assert_eq!(rt; solo(&rt, rt.alloc(), &mut source, &mut sink)?, (4, 0));
            assert!(rt; sink.as_slice().is_empty());
        }
    }
    Ok(())
}

#[test]
fn failing_writes(rt: HostRuntime) -> Result<(), Fail> {
    let text =
        b"sb 1\nhost host 1\nt 0 ok -\ndevice mem 16\nm 00000 0900000000000000000000000000000000000000000000000000000000000000\nend\n";
    for piece in PIECES {
        for call in 0..text.len().div_ceil(piece) {
            let mut source = CleanSource::new(rt.alloc(), b"wr 0 0 09", 4096)?;
            let mut sink = ByteSink::new(rt.alloc(), 4096, piece, &[call as u64])?;
            assert_eq!(rt; solo(&rt, rt.alloc(), &mut source, &mut sink)?, (5, 1));
            assert_eq!(rt; sink.as_slice(), &text[..call * piece]);
        }
    }
    Ok(())
}

#[test]
fn a_full_sink(rt: HostRuntime) -> Result<(), Fail> {
    let mut source = CleanSource::new(rt.alloc(), b"?", 1)?;
    let mut sink = ByteSink::new(rt.alloc(), 9, 4096, &[])?;
    assert_eq!(rt; solo(&rt, rt.alloc(), &mut source, &mut sink)?, (5, 0));
    assert_eq!(rt; sink.as_slice(), b"refused l".as_slice());
    Ok(())
}

#[test]
fn the_longest_input(rt: HostRuntime) -> Result<(), Fail> {
    let most = 1 << 26;
    let mut source = Blanks { left: most };
    let mut sink = CleanSink::new(rt.alloc())?;
    assert_eq!(rt; solo(&rt, rt.alloc(), &mut source, &mut sink)?, (0, 0));
    let mut source = Blanks { left: most + 1 };
    let mut sink = ByteSink::new(rt.alloc(), 64, 64, &[])?;
    assert_eq!(rt; solo(&rt, rt.alloc(), &mut source, &mut sink)?, (7, 0));
    assert_eq!(rt; sink.as_slice(), b"too long\n".as_slice());
    Ok(())
}
