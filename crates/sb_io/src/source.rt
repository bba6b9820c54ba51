//! Sources of bytes.

ghost use Rattle.std.specs.Prelude.{ℕ, List, Option, ◌<◌, length};
ghost use Rattle.sb_io.specs.Sources.{CountsReadFaults, Reads};

/// What a read answered.
#[derive(Clone, Copy, Debug, PartialEq, Eq)]
pub enum Got {
    /// So many bytes, at least one, at the front of the buffer.
    Bytes(usize),
    /// There are no more.
    End,
    /// The read failed, and took nothing.
    Failed,
}

/// A source of bytes that counts its faults.
pub trait Source {
    /// The bytes that are left, where it tells them. Whether it does never changes.
    ghost left: { Self → Option (List ℕ) };

    /// How often it failed.
    ghost faults: { Self → ℕ };

    /// Reads at least one byte, up to the buffer's length; or finds the end; or fails, which raises the count of faults.
    fn read(&mut self, buf: &mut [u8]) -> Got
        requires { 0 < length buf.old }
        ensures bytes { Reads (left self.old) (left self.new) result buf.new }
        ensures cause { CountsReadFaults (faults self.old) (faults self.new) result };
}
