//! Lines of words, printed through a buffer.
#![tactic(auto, using(sb_io::proofs::GainLemmas::part_first, crate::proofs::PrintLemmas::prints_push, crate::proofs::PrintLemmas::prints_then, crate::proofs::PrintLemmas::prints_part, crate::proofs::PrintLemmas::part_before, crate::proofs::PrintLemmas::prints_flush, crate::proofs::PrintLemmas::part_flush))]

ghost use Rattle.std.specs.Prelude.{◌≡◌, ◌≤◌, ◌++◌, [], ◌∷◌, decimal, flat_map, length, map, OnErr, OnOk};
ghost use Rattle.sb_io.specs.Counts.{FaultsIncreased};
ghost use Rattle.sb_io.specs.Written.{Gains, GainsPart};
ghost use Rattle.sb_text.specs.TextLines.{text_line, word_text};
ghost use Rattle.sb_text.specs.Printing.{IsPrinted};

use crate::line_word::LineWord;
use crate::printed::{Printed, came_to};
use crate::report::line_buffer::{LineBuffer, flush, make_room};
use crate::report::pieces::push_number;
use crate::report::printing::{print_short, print_text};
use sb_io::{Sink, WriteFailed};

/// More than any number has in decimal digits.
const NUMBER_ROOM: usize = 40;

/// Prints a number in decimal digits.
fn print_number<K: Sink>(sink: &mut K, buffer: &mut LineBuffer, n: u64) -> Result<(), WriteFailed>
    ensures printed { IsPrinted K.Sink result sink.old sink.new buffer.old buffer.new (decimal n) }
{
    make_room(sink, buffer, NUMBER_ROOM)?;
    push_number(buffer, n);
    Ok(())
}

/// Prints a word.
fn print_word<K: Sink>(
    sink: &mut K,
    buffer: &mut LineBuffer,
    word: LineWord<'_>,
) -> Result<(), WriteFailed>
    ensures printed { IsPrinted K.Sink result sink.old sink.new buffer.old buffer.new (word_text word.entry) }
{
    match word {
        LineWord::Text(text) => print_text(sink, buffer, text),
        LineWord::Number(n) => print_number(sink, buffer, n),
    }
}

/// Prints a blank and a word.
fn print_next<K: Sink>(
    sink: &mut K,
    buffer: &mut LineBuffer,
    word: LineWord<'_>,
) -> Result<(), WriteFailed>
    ensures printed { IsPrinted K.Sink result sink.old sink.new buffer.old buffer.new (32 ∷ word_text word.entry) }
{
    print_short(sink, buffer, b" ")?;
    print_word(sink, buffer, word)
}

/// Prints words, a blank before each.
fn print_rest<K: Sink>(
    sink: &mut K,
    buffer: &mut LineBuffer,
    words: &[LineWord<'_>],
) -> Result<(), WriteFailed>
    ensures printed { IsPrinted K.Sink result sink.old sink.new buffer.old buffer.new (flat_map (λ w. 32 ∷ word_text w) words.now) }
{
    for index in 0..words.len() {
        print_next(sink, buffer, words[index])?;
    }
    Ok(())
}

/// Prints the end of a line, and words before it, a blank before each.
fn print_rest_of_line<K: Sink>(
    sink: &mut K,
    buffer: &mut LineBuffer,
    words: &[LineWord<'_>],
) -> Result<(), WriteFailed>
    ensures printed { IsPrinted K.Sink result sink.old sink.new buffer.old buffer.new
        (flat_map (λ w. 32 ∷ word_text w) words.now ++ 10 ∷ []) }
{
    print_rest(sink, buffer, words)?;
    print_short(sink, buffer, b"\n")
}

/// Prints a line of words.
pub fn print_words<K: Sink>(
    sink: &mut K,
    buffer: &mut LineBuffer,
    words: &[LineWord<'_>],
) -> Result<(), WriteFailed>
    ensures printed { IsPrinted K.Sink result sink.old sink.new buffer.old buffer.new (text_line (map word_text words.now)) }
{
    match words {
        [] => print_short(sink, buffer, b"\n"),
        [first, rest @ ..] => {
            print_word(sink, buffer, *first)?;
            print_rest_of_line(sink, buffer, rest)
        }
    }
}

/// Prints the last line, and writes all that waits.
pub fn print_last<K: Sink>(
    sink: &mut K,
    buffer: &mut LineBuffer,
    words: &[LineWord<'_>],
) -> Result<(), WriteFailed>
    ensures printed { IsPrinted K.Sink result sink.old sink.new buffer.old buffer.new (text_line (map word_text words.now)) }
    ensures empty { OnOk result (buffer.new ≡ []) }
{
    print_words(sink, buffer, words)?;
    flush(sink, buffer)
}

/// Writes a line of words.
fn write_line<K: Sink>(sink: &mut K, words: &[LineWord<'_>]) -> Result<(), WriteFailed>
    ensures done { OnOk result (Gains (K.held sink.old) (K.held sink.new) (text_line (map word_text words.now))) }
    ensures part { OnErr result (GainsPart (K.held sink.old) (K.held sink.new) (text_line (map word_text words.now))) }
    ensures cause { OnErr result (FaultsIncreased (K.faults sink.old) (K.faults sink.new)) }
    ensures clean { OnOk result (K.faults sink.new ≡ K.faults sink.old) }
{
    let mut buffer = LineBuffer::new();
    print_last(sink, &mut buffer, words)
}

/// Writes a line: the words with a blank between them, and a line feed. It takes no memory.
///
/// Where the sink fails, a first part of the line was written.
pub fn print_line<K: Sink>(sink: &mut K, words: &[LineWord<'_>]) -> Printed
    ensures done { result ≡ Printed.Done → Gains (K.held sink.old) (K.held sink.new) (text_line (map word_text words.now)) }
    ensures part { result ≡ Printed.Failed → GainsPart (K.held sink.old) (K.held sink.new) (text_line (map word_text words.now)) }
    ensures cause { result ≡ Printed.Failed → FaultsIncreased (K.faults sink.old) (K.faults sink.new) }
    ensures clean { result ≡ Printed.Done → K.faults sink.new ≡ K.faults sink.old }
{
    came_to(write_line(sink, words))
}
