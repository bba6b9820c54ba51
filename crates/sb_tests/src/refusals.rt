//! What ends with a line of its own in place of a report, and runs nothing.

use crate::calls::written;
use crate::example::EXAMPLE;
use sb_drive::FreeGate;
use sb_link::SerialFabric;
use sb_ring::RingFabric;
use std::alloc::Global;
use std::test::Fail;
use std::thread::Threads;

// words that ask for nothing
const UNTAKEN: [&str; 14] = [
    "",
    "Solo",
    "solo solo",
    "--help",
    "gen",
    "gen -1",
    "replay --workers 2",
    "replay --order 4294967296",
    "replay --order -1",
    "replay --history=yes",
    "run --workers 0",
    "run --workers 17",
    "run --workers",
    "run --order 1",
];

// words, an input, and what is wrong with it
const REFUSED: [(&str, &str, &str); 12] = [
    ("replay", "", "refused json\n"),
    ("run", "", "refused json\n"),
    ("replay", "{}", "refused field version\n"),
    ("run", "{}", "refused field version\n"),
    ("solo", "read 0 0 1", "refused line 1 verb\n"),
    ("solo", "rd 0 0", "refused line 1 number\n"),
    ("solo", "\nrd 0 4 1", "refused line 2 size\n"),
    ("solo", "wr 0 0 0", "refused line 1 data\n"),
    ("solo", "rd 0 0 257", "refused line 1 length\n"),
    ("solo", "rd 1 1 1", "refused line 1 aligned\n"),
    ("solo", "rd 4095 0 2", "refused line 1 page\n"),
    ("solo", "rd 0x100000000000000 0 1", "refused line 1 range\n"),
];

// a piece of the example, what it is replaced by, and what is wrong then
const FAULTS: [(&str, &str, &str); 14] = [
    (r#""links":["#, r#""lines":["#, "refused field links\n"),
    (r#""to":"m1","#, "", "refused field links[5].to\n"),
    (
        r#""pages":1}"#,
        r#""pages":0}"#,
        "refused count devices[0].pages\n",
    ),
    (
        r#""name":"r1""#,
        r#""name":"r0""#,
        "refused name routers[1].name\n",
    ),
    (r#""id":1,"#, r#""id":0,"#, "refused hostid 1\n"),
    ("0x20000\",", "0x20800\",", "refused range 1\n"),
    ("0x20000\",", "0x10000\",", "refused overlap 1 0\n"),
    (
        r#""to":"r2","width":32"#,
        r#""to":"r2","width":12"#,
        "refused width 3\n",
    ),
    (r#""to":"m0""#, r#""to":"cpu0""#, "refused end 4\n"),
    (
        r#"],"wire""#,
        r#",{"name":"l8","from":"r1","to":"r0","width":32,"capacity":1}],"wire""#,
        "refused backward 8\n",
    ),
    (
        r#"{"name":"l0","from":"cpu0","to":"r0","width":32,"capacity":8},"#,
        "",
        "refused unlinked host 0\n",
    ),
    (
        r#""deadbeef"}"#,
        r#""deadbeef"},{"name":"spare","base":"0x60000","pages":1}"#,
        "refused unlinked device 4\n",
    ),
    (
        "rd 0x10000 3",
        "rd 0x10001 3",
        "refused script 0 2 aligned\n",
    ),
    (r#""m2":"l3","#, "", "refused route 0 2\n"),
];

// a piece of the example, what is put in its place so many times over with one more behind it, and what there is too
// much of then: the bytes of an image, the words of all scripts, the lines of one
const TOO_MUCH: [(&str, u32, &str, &str, &str); 3] = [
    ("deadbeef", 4_096, "00", "00", "refused image 3 4097\n"),
    (
        r#""rd 0x10000 3 4""#,
        1_024,
        r#""rd 0x10000 0 256","#,
        r#""rd 0x10000 0 256""#,
        "refused budget 262416\n",
    ),
    (
        r#""rd 0x10000 3 4""#,
        65_532,
        r#""?","#,
        r#""?""#,
        "refused count hosts[0].script\n",
    ),
];

/// Words that ask for nothing, though the input has a network.
#[test]
fn words_that_are_not_taken(rt: HostRuntime) -> Result<(), Fail> {
    for line in UNTAKEN {
        let mut fabric = RingFabric::new(rt.alloc());
        let (ended, sink) = written(&rt, rt.alloc(), line, EXAMPLE, &mut fabric, &FreeGate)?;
        assert_eq!(rt; ended, (2, 0), "{line}");
        assert_eq!(rt; sink.as_slice(), b"usage\n".as_slice(), "{line}");
    }
    Ok(())
}

// whether an input is refused for that
fn is_refused<R: Threads + Sync>(
    rt: &R,
    alloc: Global,
    line: &str,
    input: &str,
    fault: &str,
) -> Result<bool, Fail> {
    let mut fabric = RingFabric::new(alloc);
    let (ended, sink) = written(rt, alloc, line, input, &mut fabric, &FreeGate)?;
    Ok(ended == (3, 0) && sink.as_slice() == fault.as_bytes())
}

/// Inputs that are no bundle, and lines with each fault that a line may have.
#[test]
fn refused_inputs(rt: HostRuntime) -> Result<(), Fail> {
    for (line, input, fault) in REFUSED {
        assert!(rt; is_refused(&rt, rt.alloc(), line, input, fault)?, "{fault}");
    }
    Ok(())
}

/// Faults that are put into the example, and the lines that tell them.
#[test]
fn refused_bundles(rt: HostRuntime) -> Result<(), Fail> {
    for (old, new, fault) in FAULTS {
        let Some((front, back)) = EXAMPLE.split_once(old) else {
            return Err("a piece of the example")?;
        };
        let mut text = String::from_str(rt.alloc(), front)?;
        text.push_str(new)?;
        text.push_str(back)?;
        assert!(rt;
            is_refused(&rt, rt.alloc(), "replay", text.as_str(), fault)?,
            "{fault}"
        );
    }
    Ok(())
}

/// A longer image than the device has room for, more words than a bundle may have, and more lines than a script may have.
#[test]
fn too_much(rt: HostRuntime) -> Result<(), Fail> {
    for (old, count, piece, last, fault) in TOO_MUCH {
        let Some((front, back)) = EXAMPLE.split_once(old) else {
            return Err("a piece of the example")?;
        };
        let mut text = String::from_str(rt.alloc(), front)?;
        for _ in 0..count {
            text.push_str(piece)?;
        }
        text.push_str(last)?;
        text.push_str(back)?;
        assert!(rt;
            is_refused(&rt, rt.alloc(), "replay", text.as_str(), fault)?,
            "{fault}"
        );
    }
    Ok(())
}
