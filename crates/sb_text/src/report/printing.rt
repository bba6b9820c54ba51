//! Texts of any length, printed through a buffer.
#![tactic(auto, using(sb_io::proofs::GainLemmas::part_first, crate::proofs::PrintLemmas::prints_push, crate::proofs::PrintLemmas::prints_then, crate::proofs::PrintLemmas::prints_part, crate::proofs::PrintLemmas::part_before, crate::proofs::PrintLemmas::prints_flush, crate::proofs::PrintLemmas::part_flush))]

ghost use Rattle.std.specs.Prelude.{◌≡◌, ◌≤◌, ◌++◌, [], ◌∷◌, length, map, OnOk};
ghost use Rattle.hex.specs.Hex.{encode_lower};
ghost use Rattle.sb_text.specs.TextLines.{body_text, text_line};
ghost use Rattle.sb_text.specs.Printing.{IsPrinted};

use crate::report::line_buffer::{LineBuffer, ROOM, make_room};
use sb_io::{Sink, WriteFailed};

/// So many bytes are put in hexadecimal digits at a time.
const DIGIT_BYTES: usize = 32;

/// Prints a text of at most 8,192 bytes.
#[inline(always)]
pub fn print_short<K: Sink>(
    sink: &mut K,
    buffer: &mut LineBuffer,
    text: &[u8],
) -> Result<(), WriteFailed>
    requires { length text.now ≤ 8192 }
    ensures printed { IsPrinted K.Sink result sink.old sink.new buffer.old buffer.new text.now }
{
    make_room(sink, buffer, text.len())?;
    buffer.push(text);
    Ok(())
}

/// Prints at most 32 bytes in hexadecimal digits.
#[inline(always)]
fn print_digits<K: Sink>(
    sink: &mut K,
    buffer: &mut LineBuffer,
    bytes: &[u8],
) -> Result<(), WriteFailed>
    requires { length bytes.now ≤ 32 }
    ensures printed { IsPrinted K.Sink result sink.old sink.new buffer.old buffer.new (encode_lower bytes.now) }
{
    make_room(sink, buffer, 2 * DIGIT_BYTES)?;
    buffer.push_hex(bytes);
    Ok(())
}

/// Prints any number of bytes in hexadecimal digits.
#[inline(always)]
fn print_hex<K: Sink>(
    sink: &mut K,
    buffer: &mut LineBuffer,
    bytes: &[u8],
) -> Result<(), WriteFailed>
    ensures printed { IsPrinted K.Sink result sink.old sink.new buffer.old buffer.new (encode_lower bytes.now) }
{
    let mut at = 0;
    while at < bytes.len() {
        let count = (bytes.len() - at).min(DIGIT_BYTES);
        print_digits(sink, buffer, &bytes[at..at + count])?;
        at += count;
    }
    Ok(())
}

/// Prints a body, or a dash where it is empty.
#[inline(always)]
pub fn print_body<K: Sink>(
    sink: &mut K,
    buffer: &mut LineBuffer,
    bytes: &[u8],
) -> Result<(), WriteFailed>
    ensures printed { IsPrinted K.Sink result sink.old sink.new buffer.old buffer.new (body_text bytes.now) }
{
    match bytes {
        [] => print_short(sink, buffer, b"-"),
        _ => print_hex(sink, buffer, bytes),
    }
}

/// Prints a text of any length.
pub fn print_text<K: Sink>(
    sink: &mut K,
    buffer: &mut LineBuffer,
    text: &[u8],
) -> Result<(), WriteFailed>
    ensures printed { IsPrinted K.Sink result sink.old sink.new buffer.old buffer.new text.now }
{
    let mut at = 0;
    while at < text.len() {
        let end = at + (text.len() - at).min(ROOM);
        print_short(sink, buffer, &text[at..end])?;
        at = end;
    }
    Ok(())
}
