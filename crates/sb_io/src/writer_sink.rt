//! A sink over a writer of std, as standard output is.

ghost use Rattle.std.specs.Prelude.{◌≡◌, None};

use crate::sink::{Put, Sink};
use std::io::Write;

/// A sink over a writer. It keeps nothing back, and tells no content. That the writer takes nothing of a piece counts as
/// a fault.
#[derive(Drop)]
pub struct WriterSink<W: Write> {
    writer: W,
    /// How often it failed; the count stands still at its type's end.
    faults: u64,
}

impl<W: Write> WriterSink<W> {
    /// A sink over this writer, without a fault so far. It takes no memory.
    pub fn new(writer: W) -> WriterSink<W>
        ensures { result.faults ≡ 0 }
    {
        WriterSink { writer, faults: 0 }
    }
}

impl<W: Write> Sink for WriterSink<W> {
    ghost held = { λ _. None };

    ghost faults = { λ s. s.faults };

    fn write(&mut self, piece: &[u8]) -> Put {
        match self.writer.write(piece) {
            Ok(0) | Err(_) => {
                self.faults = self.faults.saturating_add(1);
                Put::Failed
            }
            Ok(count) => Put::Took(count),
        }
    }
}
