//! Reports that are judged by their bundle.

use crate::calls::written;
use sb_drive::FreeGate;
use sb_link::SerialFabric;
use std::test::Fail;

// one host that writes a byte, and the report of its run with its history
const EVIDENCE: &str =
    "{\"version\":1,\"hosts\":[{\"name\":\"cpu\",\"id\":0,\"script\":[\"wr 0x10000 0 09\"]}],\"routers\":[{\"name\":\"hub\",\"routes\":{\"ram\":\"down\"}}],\"devices\":[{\"name\":\"ram\",\"base\":\"0x10000\",\"pages\":1}],\"links\":[{\"name\":\"up\",\"from\":\"cpu\",\"to\":\"hub\",\"width\":32,\"capacity\":1},{\"name\":\"down\",\"from\":\"hub\",\"to\":\"ram\",\"width\":32,\"capacity\":1}]}\n%report\nsb 1\nhistory 1\ne 0 ram 00400003 00000000010000 00000000000000 09\nhost cpu 1\nt 0 ok -\ndevice ram 1\nm 00000 0900000000000000000000000000000000000000000000000000000000000000\nend\n";

// a piece of it, what it is replaced by, and the status and the line that come then
const CHANGES: [(&str, &str, u8, &str); 12] = [
    ("sb 1", "sb 1", 0, "yes\n"),
    ("e 0 ", "e 7 ", 0, "yes\n"),
    ("sb 1", "sb 2", 8, "no 1 form\n"),
    ("history 1", "history 2", 8, "no 4 form\n"),
    ("00000000010000", "00000000010001", 8, "no 3 entry\n"),
    (
        "history 1\ne 0 ram 00400003 00000000010000 00000000000000 09\n",
        "history 0\n",
        8,
        "no 2 short\n",
    ),
    ("t 0 ok", "t 0 neterr", 8, "no 5 text\n"),
    ("m 00000 09", "m 00000 08", 8, "no 7 text\n"),
    ("end\n", "end", 8, "no 8 text\n"),
    ("end\n", "end\nend\n", 8, "no 9 text\n"),
    ("%report", "%reports", 3, "refused noreport\n"),
    (
        "\"version\":1",
        "\"version\":2",
        3,
        "refused count version\n",
    ),
];

/// What is said of the report as it is, of another lawful one, of such as go wrong for each reason, and of inputs without a
/// report or a bundle.
#[test]
fn reports_are_judged(rt: HostRuntime) -> Result<(), Fail> {
    for (old, new, status, line) in CHANGES {
        let Some((front, back)) = EVIDENCE.split_once(old) else {
            return Err("a piece of the evidence")?;
        };
        let mut text = String::from_str(rt.alloc(), front)?;
        text.push_str(new)?;
        text.push_str(back)?;
        let mut fabric = SerialFabric::new(rt.alloc());
        let (ended, sink) = written(
            &rt,
            rt.alloc(),
            "check",
            text.as_str(),
            &mut fabric,
            &FreeGate,
        )?;
        assert_eq!(rt; ended, (status, 0), "{line}");
        assert_eq!(rt; sink.as_slice(), line.as_bytes(), "{line}");
    }
    Ok(())
}
