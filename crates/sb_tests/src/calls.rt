//! Calls of the top call.

ghost use Rattle.std.specs.Prelude.{◌≡◌, []};

use sb_drive::Gate;
use sb_io::{ByteSink, CleanSource, Sink, Source};
use sb_link::MeetFabric;
use sb_packet::Journal;
use sb_top::top;
use std::alloc::{AllocError, Global};
use std::thread::Threads;

/// The longest pieces in which sources give and sinks take.
pub const PIECES: [usize; 3] = [1, 7, 4096];

/// What the top call came to on the words of a line: its status, and how many packets were served.
pub fn call<R: Threads + Sync, S: Source, K: Sink, F: MeetFabric, G: Gate + Sync>(
    rt: &R,
    alloc: Global,
    line: &str,
    source: &mut S,
    sink: &mut K,
    fabric: &mut F,
    gate: &G,
) -> Result<(u8, usize), AllocError>
    requires unused { F.made fabric.old ≡ [] }
{
    let mut words = Vec::new(alloc);
    for word in line.split_whitespace() {
        words.push(String::from_str(alloc, word)?)?;
    }
    let mut journal = Journal::new(alloc);
    let status = top(
        rt,
        alloc,
        words.as_slice(),
        source,
        sink,
        fabric,
        gate,
        &mut journal,
    );
    Ok((status, journal.entries().len()))
}

/// The same of an input that is read without a fault, and what was written.
pub fn written<R: Threads + Sync, F: MeetFabric, G: Gate + Sync>(
    rt: &R,
    alloc: Global,
    line: &str,
    input: &str,
    fabric: &mut F,
    gate: &G,
) -> Result<((u8, usize), ByteSink), AllocError>
    requires unused { F.made fabric.old ≡ [] }
{
    let mut source = CleanSource::new(alloc, input.as_bytes(), 4096)?;
    let mut sink = ByteSink::new(alloc, 4096, 4096, &[])?;
    let ended = call(rt, alloc, line, &mut source, &mut sink, fabric, gate)?;
    Ok((ended, sink))
}
