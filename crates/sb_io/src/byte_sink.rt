//! A sink in memory.

ghost use Rattle.std.specs.Prelude.{◌≡◌, ◌<◌, ◌+◌, Some, [], length, IfOk};
ghost use Rattle.sb_io.specs.Counts.{raised};
ghost use Rattle.sb_io.specs.Sinks.{CountsWriteFaults, Writes};
ghost use Rattle.sb_io.specs.Streams.{write_answer};
ghost use Rattle.sb_io.specs.declared.sink.Put.TheVariants as put;

use crate::byte_source::is_failing;
use crate::sink::{Put, Sink};
use std::alloc::{AllocError, Global};
use std::marker::Model;

/// Takes pieces while it has room, and fails at the calls whose numbers it was made with. It tells what it holds.
#[derive(Drop)]
pub struct ByteSink {
    bytes: Vec<u8>,
    room: usize,
    piece: usize,
    call: u64,
    failing: Vec<u64>,
    faults: u64,
}

impl Model for ByteSink {
    ghost use Rattle.std.specs.Prelude.{◌<◌, ◌≤◌, ◌+◌, vec_len, vec_capacity};
    ghost use Rattle.sb_io.specs.Streams.{SinkState};

    ghost Value = { SinkState };

    ghost view = { λ s. record { held = s.bytes.items; room = s.room; piece = s.piece; call = s.call; failing = s.failing.items; faults = s.faults } };

    ghost invariant = { λ s. (vec_len s.bytes + s.room ≤ vec_capacity s.bytes) × (0 < s.piece) };
}

impl ByteSink {
    /// An empty sink that has room for so many bytes, of which one call takes at most `piece`. Calls are counted from
    /// 0; those in `failing` fail, and so does each call without room.
    pub fn new(
        alloc: Global,
        room: usize,
        piece: usize,
        failing: &[u64],
    ) -> Result<ByteSink, AllocError>
        requires { 0 < piece }
        ensures { IfOk result (λ s. s ≡ record { held = []; room = room; piece = piece; call = 0; failing = failing.now; faults = 0 }) }
    {
        Ok(ByteSink {
            bytes: Vec::with_capacity(alloc, room)?,
            room,
            piece,
            call: 0,
            failing: Vec::from_slice(alloc, failing)?,
            faults: 0,
        })
    }

    /// What it holds.
    pub fn as_slice(&self) -> &[u8]
        ensures { result.now ≡ self.now.held }
    {
        self.bytes.as_slice()
    }
}

impl Sink for ByteSink {
    ghost held = { λ s. Some s.held };

    ghost faults = { λ s. s.faults };

    fn write(&mut self, piece: &[u8]) -> Put
        requires { 0 < length piece.now }
        ensures bytes { Writes (Some self.old.held) (Some self.new.held) result piece.now }
        ensures cause { CountsWriteFaults self.old.faults self.new.faults result }
        ensures exact { result ≡ write_answer self.old (length piece.now) }
        ensures room { self.new.room + length self.new.held ≡ self.old.room + length self.old.held }
        ensures count { result ≡ put.Failed → self.new.faults ≡ raised self.old.faults }
        ensures call { self.new.call ≡ raised self.old.call }
        ensures piece { self.new.piece ≡ self.old.piece }
        ensures failing { self.new.failing ≡ self.old.failing }
    {
        let fails = is_failing(self.failing.as_slice(), self.call);
        self.call = self.call.saturating_add(1);
        if fails || self.room == 0 {
            self.faults = self.faults.saturating_add(1);
            return Put::Failed;
        }
        let count = piece.len().min(self.piece).min(self.room);
        self.bytes.extend_from_slice(&piece[..count]).unwrap();
        self.room -= count;
        Put::Took(count)
    }
}
