//! Sinks of bytes.

ghost use Rattle.std.specs.Prelude.{ℕ, List, Option, ◌<◌, length};
ghost use Rattle.sb_io.specs.Sinks.{CountsWriteFaults, Writes};

/// What a write answered.
#[derive(Clone, Copy, Debug, PartialEq, Eq)]
pub enum Put {
    /// So many bytes, at least one, from the front of the piece.
    Took(usize),
    /// The write failed, and took nothing.
    Failed,
}

/// A sink of bytes that counts its faults.
pub trait Sink {
    /// The bytes that it holds, where it tells them. Whether it does never changes.
    ghost held: { Self → Option (List ℕ) };

    /// How often it failed.
    ghost faults: { Self → ℕ };

    /// Takes at least one byte from the front of a piece; or fails, which raises the count of faults.
    fn write(&mut self, piece: &[u8]) -> Put
        requires { 0 < length piece.now }
        ensures bytes { Writes (held self.old) (held self.new) result piece.now }
        ensures cause { CountsWriteFaults (faults self.old) (faults self.new) result };
}
