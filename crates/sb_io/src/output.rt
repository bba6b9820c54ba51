//! Writing a text to a sink.

ghost use Rattle.std.specs.Prelude.{◌≡◌, ◌≤◌, OnOk, OnErr};
ghost use Rattle.sb_io.specs.Counts.{FaultsIncreased};
ghost use Rattle.sb_io.specs.Written.{Gains, GainsPart};

use crate::sink::{Put, Sink};

/// A sink failed: its count of faults rose.
#[derive(Clone, Copy, Debug, PartialEq, Eq)]
pub struct WriteFailed;

/// Writes a text, piece by piece as the sink takes it; where the sink fails, a first part of the text was written. It takes no
/// memory.
pub fn write_all<K: Sink>(sink: &mut K, text: &[u8]) -> Result<(), WriteFailed>
    ensures done { OnOk result (Gains (K.held sink.old) (K.held sink.new) text.now) }
    ensures part { OnErr result (GainsPart (K.held sink.old) (K.held sink.new) text.now) }
    ensures cause { OnErr result (FaultsIncreased (K.faults sink.old) (K.faults sink.new)) }
    ensures clean { OnOk result (K.faults sink.new ≡ K.faults sink.old) }
{
    let mut at = 0;
    while at < text.len() {
        match sink.write(&text[at..]) {
            Put::Took(count) => at += count,
            Put::Failed => return Err(WriteFailed),
        }
    }
    Ok(())
}
