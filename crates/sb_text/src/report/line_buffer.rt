//! A text that waits to be written, in a buffer of fixed size: so that lines are written many at a time, and without memory.

ghost use Rattle.std.specs.Prelude.{◌≡◌, ◌≤◌, ◌+◌, ◌*◌, ◌++◌, [], length, OnOk, OnErr};
ghost use Rattle.hex.specs.Hex.{encode_lower};
ghost use Rattle.sb_io.specs.Counts.{FaultsIncreased};
ghost use Rattle.sb_io.specs.Written.{GainsPart};
ghost use Rattle.sb_text.specs.Printing.{Prints};

use sb_io::{Sink, WriteFailed, write_all};
use std::marker::Model;

/// How many bytes may wait.
pub const ROOM: usize = 8192;

/// Bytes that wait, which contracts see as their list.
#[derive(Drop)]
pub struct LineBuffer {
    bytes: [u8; ROOM],
    len: usize,
}

impl Model for LineBuffer {
    ghost use Rattle.std.specs.Prelude.{◌≡◌, ◌≤◌, ℕ, List, take, length};

    ghost Value = { List ℕ };

    ghost view = { λ w. take w.len w.bytes };

    ghost invariant = { λ w. (w.len ≤ 8192) × (length w.bytes ≡ 8192) };
}

impl LineBuffer {
    /// Nothing waits.
    pub fn new() -> LineBuffer
        ensures { result ≡ [] }
    {
        LineBuffer {
            bytes: [0; ROOM],
            len: 0,
        }
    }

    /// Puts bytes behind those that wait.
    pub fn push(&mut self, text: &[u8])
        requires { length self.old + length text.now ≤ 8192 }
        ensures text { self.new ≡ self.old ++ text.now }
        ensures len { length self.new ≡ length self.old + length text.now }
    {
        let end = self.len + text.len();
        self.bytes[self.len..end].copy_from_slice(text);
        self.len = end;
    }

    /// Puts two hexadecimal digits a byte behind those that wait.
    pub fn push_hex(&mut self, bytes: &[u8])
        requires { length self.old + 2 * length bytes.now ≤ 8192 }
        ensures text { self.new ≡ self.old ++ encode_lower bytes.now }
        ensures len { length self.new ≡ length self.old + 2 * length bytes.now }
    {
        let end = self.len + 2 * bytes.len();
        hex::encode_to_slice(bytes, &mut self.bytes[self.len..end]).unwrap();
        self.len = end;
    }

    /// The bytes that wait.
    pub fn as_slice(&self) -> &[u8]
        ensures { result.now ≡ self.now }
    {
        &self.bytes[..self.len]
    }

    /// Lets all bytes go.
    pub fn clear(&mut self)
        ensures { self.new ≡ [] }
    {
        self.len = 0;
    }

    /// How many bytes wait.
    pub fn len(&self) -> usize
        ensures len { result ≡ length self.now }
        ensures within { result ≤ 8192 }
    {
        self.len
    }
}

/// Writes all that waits.
pub fn flush<K: Sink>(sink: &mut K, buffer: &mut LineBuffer) -> Result<(), WriteFailed>
    ensures done { OnOk result (Prints (K.held sink.old) buffer.old (K.held sink.new) buffer.new []) }
    ensures empty { OnOk result (buffer.new ≡ []) }
    ensures part { OnErr result (GainsPart (K.held sink.old) (K.held sink.new) buffer.old) }
    ensures cause { OnErr result (FaultsIncreased (K.faults sink.old) (K.faults sink.new)) }
    ensures clean { OnOk result (K.faults sink.new ≡ K.faults sink.old) }
{
    write_all(sink, buffer.as_slice())?;
    buffer.clear();
    Ok(())
}

/// Makes room for so many bytes, by writing what waits where there is too little.
#[inline(always)]
pub fn make_room<K: Sink>(
    sink: &mut K,
    buffer: &mut LineBuffer,
    space: usize,
) -> Result<(), WriteFailed>
    requires { space ≤ 8192 }
    ensures done { OnOk result (Prints (K.held sink.old) buffer.old (K.held sink.new) buffer.new []) }
    ensures room { OnOk result (length buffer.new + space ≤ 8192) }
    ensures part { OnErr result (GainsPart (K.held sink.old) (K.held sink.new) buffer.old) }
    ensures cause { OnErr result (FaultsIncreased (K.faults sink.old) (K.faults sink.new)) }
    ensures clean { OnOk result (K.faults sink.new ≡ K.faults sink.old) }
{
    if buffer.len() + space > ROOM {
        return flush(sink, buffer);
    }
    Ok(())
}
