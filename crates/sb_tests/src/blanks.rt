//! A source of many blanks.

ghost use Rattle.std.specs.Prelude.{None};

use sb_io::{Got, Source};

/// Gives so many blanks, a buffer full at a time.
#[derive(Drop)]
pub struct Blanks {
    pub left: usize,
}

impl Source for Blanks {
    ghost left = { λ _. None };

    ghost faults = { λ _. 0 };

    fn read(&mut self, buf: &mut [u8]) -> Got {
        let count = self.left.min(buf.len());
        if count == 0 {
            return Got::End;
        }
        buf[..count].fill(b' ');
        self.left -= count;
        Got::Bytes(count)
    }
}
