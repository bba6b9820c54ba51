//! A source in memory that never fails.

ghost use Rattle.std.specs.Prelude.{◌≡◌, ◌<◌, Some, length, IfOk};
ghost use Rattle.sb_io.specs.Sources.{CountsReadFaults, Reads};
ghost use Rattle.sb_io.specs.Streams.{clean_answer};

use crate::piece::copy_front;
use crate::source::{Got, Source};
use std::alloc::{AllocError, Global};
use std::marker::Model;

/// Gives its bytes in pieces, and never fails. It tells what is left.
#[derive(Drop)]
pub struct CleanSource {
    bytes: Vec<u8>,
    place: usize,
    piece: usize,
}

impl Model for CleanSource {
    ghost use Rattle.std.specs.Prelude.{◌<◌, ◌≤◌, drop, vec_len};
    ghost use Rattle.sb_io.specs.Streams.{CleanState};

    ghost Value = { CleanState };

    ghost view = { λ s. record { left = drop s.place s.bytes.items; piece = s.piece } };

    ghost invariant = { λ s. (s.place ≤ vec_len s.bytes) × (0 < s.piece) };
}

impl CleanSource {
    /// A source of these bytes, of which one call gives at most `piece`.
    pub fn new(alloc: Global, bytes: &[u8], piece: usize) -> Result<CleanSource, AllocError>
        requires { 0 < piece }
        ensures { IfOk result (λ s. s ≡ record { left = bytes.now; piece = piece }) }
    {
        Ok(CleanSource {
            bytes: Vec::from_slice(alloc, bytes)?,
            place: 0,
            piece,
        })
    }
}

impl Source for CleanSource {
    ghost left = { λ s. Some s.left };

    ghost faults = { λ _. 0 };

    fn read(&mut self, buf: &mut [u8]) -> Got
        requires { 0 < length buf.old }
        ensures bytes { Reads (Some self.old.left) (Some self.new.left) result buf.new }
        ensures cause { CountsReadFaults 0 0 result }
        ensures exact { result ≡ clean_answer self.old (length buf.old) }
        ensures piece { self.new.piece ≡ self.old.piece }
    {
        let count = copy_front(&self.bytes[self.place..], self.piece, buf);
        if count == 0 {
            return Got::End;
        }
        self.place += count;
        Got::Bytes(count)
    }
}
