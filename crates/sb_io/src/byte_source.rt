//! A source in memory.

ghost use Rattle.std.specs.Prelude.{◌≡◌, ◌<◌, Some, [], length, IfOk};
ghost use Rattle.sb_io.specs.Counts.{raised};
ghost use Rattle.sb_io.specs.Sources.{CountsReadFaults, Reads};
ghost use Rattle.sb_io.specs.Streams.{is_failing as failing_test, read_answer};
ghost use Rattle.sb_io.specs.declared.source.Got.TheVariants as got;

use crate::piece::copy_front;
use crate::source::{Got, Source};
use std::alloc::{AllocError, Global};
use std::marker::Model;

/// Gives its bytes in pieces, and fails at the calls whose numbers it was made with. It tells what is left.
#[derive(Drop)]
pub struct ByteSource {
    bytes: Vec<u8>,
    place: usize,
    piece: usize,
    call: u64,
    failing: Vec<u64>,
    faults: u64,
}

impl Model for ByteSource {
    ghost use Rattle.std.specs.Prelude.{◌<◌, ◌≤◌, drop, vec_len};
    ghost use Rattle.sb_io.specs.Streams.{SourceState};

    ghost Value = { SourceState };

    ghost view = { λ s. record { left = drop s.place s.bytes.items; piece = s.piece; call = s.call; failing = s.failing.items; faults = s.faults } };

    ghost invariant = { λ s. (s.place ≤ vec_len s.bytes) × (0 < s.piece) };
}

impl ByteSource {
    /// A source of these bytes, of which one call gives at most `piece`. Calls are counted from 0, and those in
    /// `failing` fail.
    pub fn new(
        alloc: Global,
        bytes: &[u8],
        piece: usize,
        failing: &[u64],
    ) -> Result<ByteSource, AllocError>
        requires { 0 < piece }
        ensures { IfOk result (λ s. s ≡ record { left = bytes.now; piece = piece; call = 0; failing = failing.now; faults = 0 }) }
    {
        Ok(ByteSource {
            bytes: Vec::from_slice(alloc, bytes)?,
            place: 0,
            piece,
            call: 0,
            failing: Vec::from_slice(alloc, failing)?,
            faults: 0,
        })
    }
}

/// Whether a call is to fail.
pub(crate) fn is_failing(failing: &[u64], call: u64) -> bool
    ensures { result ≡ failing_test failing.now call }
{
    failing.iter().any(|k| *k == call)
}

impl Source for ByteSource {
    ghost left = { λ s. Some s.left };

    ghost faults = { λ s. s.faults };

    fn read(&mut self, buf: &mut [u8]) -> Got
        requires { 0 < length buf.old }
        ensures bytes { Reads (Some self.old.left) (Some self.new.left) result buf.new }
        ensures cause { CountsReadFaults self.old.faults self.new.faults result }
        ensures exact { result ≡ read_answer self.old (length buf.old) }
        ensures count { result ≡ got.Failed → self.new.faults ≡ raised self.old.faults }
        ensures call { self.new.call ≡ raised self.old.call }
        ensures piece { self.new.piece ≡ self.old.piece }
        ensures failing { self.new.failing ≡ self.old.failing }
    {
        let fails = is_failing(self.failing.as_slice(), self.call);
        self.call = self.call.saturating_add(1);
        if fails {
            self.faults = self.faults.saturating_add(1);
            return Got::Failed;
        }
        let count = copy_front(&self.bytes[self.place..], self.piece, buf);
        if count == 0 {
            return Got::End;
        }
        self.place += count;
        Got::Bytes(count)
    }
}
