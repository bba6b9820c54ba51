//! The summary of the bundle that a number makes.
#![tactic(auto, using(sb_io::proofs::GainLemmas::gains_more, sb_io::proofs::GainLemmas::part_first, sb_io::proofs::GainLemmas::part_then))]

ghost use Rattle.std.specs.Prelude.{◌≡◌, ◌++◌, map, OnErr, OnOk};
ghost use Rattle.sb_io.specs.Counts.{FaultsIncreased};
ghost use Rattle.sb_io.specs.Written.{Gains, GainsPart};
ghost use Rattle.sb_text.specs.TextLines.{text_line, word_text};
ghost use Rattle.sb_text.specs.declared.printed.Printed.TheVariants as printed;
ghost use Rattle.sb_gen.specs.Summary.{gen_counts, gen_head, gen_text};

use crate::totals::gen_totals;
use sb_io::{Sink, WriteFailed};
use sb_text::{LineWord, Printed, print_line};

/// Writes a line.
fn write_line<K: Sink>(sink: &mut K, words: &[LineWord<'_>]) -> Result<(), WriteFailed>
    ensures done { OnOk result (Gains (K.held sink.old) (K.held sink.new) (text_line (map word_text words.now))) }
    ensures part { OnErr result (GainsPart (K.held sink.old) (K.held sink.new) (text_line (map word_text words.now))) }
    ensures cause { OnErr result (FaultsIncreased (K.faults sink.old) (K.faults sink.new)) }
    ensures clean { OnOk result (K.faults sink.new ≡ K.faults sink.old) }
{
    match print_line(sink, words) {
        Printed::Done => Ok(()),
        Printed::Failed => Err(WriteFailed),
    }
}

/// Writes two lines.
fn write_lines<K: Sink>(
    sink: &mut K,
    first: &[LineWord<'_>],
    second: &[LineWord<'_>],
) -> Result<(), WriteFailed>
    ensures done { OnOk result (Gains (K.held sink.old) (K.held sink.new)
        (text_line (map word_text first.now) ++ text_line (map word_text second.now))) }
    ensures part { OnErr result (GainsPart (K.held sink.old) (K.held sink.new)
        (text_line (map word_text first.now) ++ text_line (map word_text second.now))) }
    ensures cause { OnErr result (FaultsIncreased (K.faults sink.old) (K.faults sink.new)) }
    ensures clean { OnOk result (K.faults sink.new ≡ K.faults sink.old) }
{
    write_line(sink, first)?;
    write_line(sink, second)
}

/// Writes the lines of the number and of what the bundle of every number has.
#[tactic(auto, unfolding(crate::specs::Summary::gen_head))]
fn write_head<K: Sink>(sink: &mut K, number: u32) -> Result<(), WriteFailed>
    ensures done { OnOk result (Gains (K.held sink.old) (K.held sink.new) (gen_head number)) }
    ensures part { OnErr result (GainsPart (K.held sink.old) (K.held sink.new) (gen_head number)) }
    ensures cause { OnErr result (FaultsIncreased (K.faults sink.old) (K.faults sink.new)) }
    ensures clean { OnOk result (K.faults sink.new ≡ K.faults sink.old) }
{
    write_lines(
        sink,
        &[LineWord::Text(b"gen"), LineWord::Number(u64::from(number))],
        &[
            LineWord::Text(b"hosts"),
            LineWord::Text(b"4"),
            LineWord::Text(b"transactions"),
            LineWord::Text(b"8192"),
        ],
    )
}

/// Writes the lines of the words and the bytes of all transactions.
#[tactic(auto, unfolding(crate::specs::Summary::gen_counts))]
fn write_counts<K: Sink>(sink: &mut K, number: u32) -> Result<(), WriteFailed>
    ensures done { OnOk result (Gains (K.held sink.old) (K.held sink.new) (gen_counts number)) }
    ensures part { OnErr result (GainsPart (K.held sink.old) (K.held sink.new) (gen_counts number)) }
    ensures cause { OnErr result (FaultsIncreased (K.faults sink.old) (K.faults sink.new)) }
    ensures clean { OnOk result (K.faults sink.new ≡ K.faults sink.old) }
{
    let totals = gen_totals(number);
    write_lines(
        sink,
        &[
            LineWord::Text(b"words"),
            LineWord::Number(u64::from(totals.words)),
        ],
        &[
            LineWord::Text(b"bytes"),
            LineWord::Number(u64::from(totals.bytes)),
        ],
    )
}

/// Writes all lines but the last.
fn write_front<K: Sink>(sink: &mut K, number: u32) -> Result<(), WriteFailed>
    ensures done { OnOk result (Gains (K.held sink.old) (K.held sink.new) (gen_head number ++ gen_counts number)) }
    ensures part { OnErr result (GainsPart (K.held sink.old) (K.held sink.new) (gen_head number ++ gen_counts number)) }
    ensures cause { OnErr result (FaultsIncreased (K.faults sink.old) (K.faults sink.new)) }
    ensures clean { OnOk result (K.faults sink.new ≡ K.faults sink.old) }
{
    write_head(sink, number)?;
    write_counts(sink, number)
}

/// Writes all lines.
#[tactic(auto, using(sb_io::proofs::GainLemmas::gains_more, sb_io::proofs::GainLemmas::part_first, sb_io::proofs::GainLemmas::part_then), unfolding(crate::specs::Summary::gen_text))]
fn write_summary<K: Sink>(sink: &mut K, number: u32) -> Result<(), WriteFailed>
    ensures done { OnOk result (Gains (K.held sink.old) (K.held sink.new) (gen_text number)) }
    ensures part { OnErr result (GainsPart (K.held sink.old) (K.held sink.new) (gen_text number)) }
    ensures cause { OnErr result (FaultsIncreased (K.faults sink.old) (K.faults sink.new)) }
    ensures clean { OnOk result (K.faults sink.new ≡ K.faults sink.old) }
{
    write_front(sink, number)?;
    write_line(sink, &[LineWord::Text(b"done")])
}

/// Writes the summary of the bundle that a number makes: the number, how many hosts and transactions there are, and the words and
/// bytes of all transactions. It takes no memory, and counts the number's transactions, whatever a run made of them.
///
/// Where the sink fails, a first part of the summary was written.
pub fn print_summary<K: Sink>(sink: &mut K, number: u32) -> Printed
    ensures done { result ≡ printed.Done → Gains (K.held sink.old) (K.held sink.new) (gen_text number) }
    ensures part { result ≡ printed.Failed → GainsPart (K.held sink.old) (K.held sink.new) (gen_text number) }
    ensures cause { result ≡ printed.Failed → FaultsIncreased (K.faults sink.old) (K.faults sink.new) }
    ensures clean { result ≡ printed.Done → K.faults sink.new ≡ K.faults sink.old }
{
    match write_summary(sink, number) {
        Ok(()) => Printed::Done,
        Err(WriteFailed) => Printed::Failed,
    }
}
