//! A source over a reader of std, as standard input is.

ghost use Rattle.std.specs.Prelude.{◌≡◌, None};

use crate::source::{Got, Source};
use std::io::Read;

/// A source over a reader. It tells no content.
#[derive(Drop)]
pub struct ReaderSource<R: Read> {
    reader: R,
    /// How often it failed; the count stands still at its type's end.
    faults: u64,
}

impl<R: Read> ReaderSource<R> {
    /// A source over this reader, without a fault so far. It takes no memory.
    pub fn new(reader: R) -> ReaderSource<R>
        ensures { result.faults ≡ 0 }
    {
        ReaderSource { reader, faults: 0 }
    }
}

impl<R: Read> Source for ReaderSource<R> {
    ghost left = { λ _. None };

    ghost faults = { λ s. s.faults };

    fn read(&mut self, buf: &mut [u8]) -> Got {
        match self.reader.read(buf) {
            Ok(0) => Got::End,
            Ok(count) => Got::Bytes(count),
            Err(_) => {
                self.faults = self.faults.saturating_add(1);
                Got::Failed
            }
        }
    }
}
