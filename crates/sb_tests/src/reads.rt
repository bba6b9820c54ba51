//! How often a call asks its source for bytes.

ghost use Rattle.std.specs.Prelude.{None};

use crate::calls::call;
use sb_drive::FreeGate;
use sb_io::{ByteSink, Got, Source};
use sb_ring::RingFabric;
use std::test::Fail;

/// An empty source that counts how often it is asked.
#[derive(Drop)]
struct Counted {
    reads: u32,
}

impl Source for Counted {
    ghost left = { λ _. None };

    ghost faults = { λ _. 0 };

    fn read(&mut self, _buf: &mut [u8]) -> Got {
        self.reads = self.reads.saturating_add(1);
        Got::End
    }
}

// words, the status, and how often the source is asked: `gen` and words that aren't taken don't ask, and what reads finds
// the end at once
const CALLS: [(&str, u8, u32); 11] = [
    ("", 2, 0),
    ("read", 2, 0),
    ("gen", 2, 0),
    ("gen 4294967296", 2, 0),
    ("run --workers 0", 2, 0),
    ("replay --order -1", 2, 0),
    ("gen 0", 0, 0),
    ("solo", 0, 1),
    ("replay", 3, 1),
    ("run", 3, 1),
    ("check", 3, 1),
];

/// A source is asked where the command reads its input, and not even once where it doesn't.
#[test]
fn asked(rt: HostRuntime) -> Result<(), Fail> {
    for (line, status, reads) in CALLS {
        let mut source = Counted { reads: 0 };
        let mut sink = ByteSink::new(rt.alloc(), 4096, 4096, &[])?;
        let mut fabric = RingFabric::new(rt.alloc());
        let ended = call(
            &rt,
            rt.alloc(),
            line,
            &mut source,
            &mut sink,
            &mut fabric,
            &FreeGate,
        )?;
        assert_eq!(rt; (ended.0, source.reads), (status, reads), "{line}");
    }
    Ok(())
}
