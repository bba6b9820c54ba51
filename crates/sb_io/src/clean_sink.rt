//! A sink that never fails.

ghost use Rattle.std.specs.Prelude.{◌≡◌, ◌<◌, None, length, IsOk};
ghost use Rattle.sb_io.specs.Sinks.{CountsWriteFaults, Writes};
ghost use Rattle.sb_io.specs.declared.sink.Put.TheVariants as put;

use crate::sink::{Put, Sink};
use std::alloc::{AllocError, Global};

/// Takes each piece whole, keeps nothing and tells nothing.
#[derive(Clone, Copy, Debug, PartialEq, Eq)]
pub struct CleanSink;

impl CleanSink {
    /// A sink. It is made as the other streams in memory are, though it takes no memory.
    pub fn new(_alloc: Global) -> Result<CleanSink, AllocError>
        ensures { IsOk result }
    {
        Ok(CleanSink)
    }
}

impl Sink for CleanSink {
    ghost held = { λ _. None };

    ghost faults = { λ _. 0 };

    fn write(&mut self, piece: &[u8]) -> Put
        requires { 0 < length piece.now }
        ensures bytes { Writes None None result piece.now }
        ensures cause { CountsWriteFaults 0 0 result }
        ensures whole { result ≡ put.Took (length piece.now) }
    {
        Put::Took(piece.len())
    }
}
