//! A piece of bytes, as sources in memory give them.

ghost use Rattle.std.specs.Prelude.{◌≡◌, length, min, take};

/// Copies the front of some bytes to the front of a buffer, at most `most` of them, and gives their number.
pub fn copy_front(bytes: &[u8], most: usize, buf: &mut [u8]) -> usize
    ensures count { result ≡ min (min (length bytes.now) most) (length buf.old) }
    ensures bytes { take result buf.new ≡ take result bytes.now }
    ensures len { length buf.new ≡ length buf.old }
{
    let count = bytes.len().min(most).min(buf.len());
    buf[..count].copy_from_slice(&bytes[..count]);
    count
}
