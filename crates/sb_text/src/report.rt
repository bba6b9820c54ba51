//! The report of a run, printed through a buffer. Printing takes no memory.
#![tactic(auto, using(sb_io::proofs::GainLemmas::part_first, crate::proofs::PrintLemmas::prints_push, crate::proofs::PrintLemmas::prints_then, crate::proofs::PrintLemmas::prints_part, crate::proofs::PrintLemmas::part_before))]

mod devices;
mod history;
mod hosts;
mod line_buffer;
mod pieces;
mod printing;
mod sides;
mod words;

ghost use Rattle.std.specs.Prelude.{◌≡◌, ◌<◌, ◌++◌, [], All, length, OnErr, OnOk};
ghost use Rattle.sb_io.specs.Counts.{FaultsIncreased};
ghost use Rattle.sb_io.specs.Written.{Gains, GainsPart};
ghost use Rattle.sb_packet.specs.Answers.{RunResults};
ghost use Rattle.sb_flow.specs.NetworkOf.{network_of};
ghost use Rattle.sb_text.specs.Printing.{IsPrinted};
ghost use Rattle.sb_text.specs.Reports.{first_line, history_lines, report_text};
ghost use Rattle.sb_text.specs.Telling.{Tells};
ghost use Rattle.sb_text.specs.Told.{FitsNetwork};

use crate::line_word::LineWord;
use crate::printed::{Printed, came_to};
use crate::results::Results;
use devices::print_devices;
use history::print_history;
use hosts::print_hosts;
use line_buffer::LineBuffer;
use sb_flow::Bundle;
use sb_io::{Sink, WriteFailed};
use sb_packet::{Entry, Journal};
pub use words::print_line;
use words::{print_last, print_words};

/// Prints the first line.
fn print_first<K: Sink>(
    sink: &mut K,
    buffer: &mut LineBuffer,
    side: Option<u8>,
) -> Result<(), WriteFailed>
    ensures printed { IsPrinted K.Sink result sink.old sink.new buffer.old buffer.new (first_line side) }
{
    let version = [LineWord::Text(b"sb"), LineWord::Text(b"1")];
    match side {
        None => print_words(sink, buffer, &version),
        Some(side) => {
            let number = LineWord::Number(u64::from(side));
            print_words(
                sink,
                buffer,
                &[version[0], version[1], LineWord::Text(b"side"), number],
            )
        }
    }
}

/// Prints the history, where it is asked for.
fn print_asked<K: Sink>(
    sink: &mut K,
    buffer: &mut LineBuffer,
    bundle: &Bundle,
    entries: &[Entry],
    history: bool,
    side: Option<u8>,
) -> Result<(), WriteFailed>
    requires placed { All (λ e. e.device < length bundle.now.devices.items) entries.now }
    ensures printed { IsPrinted K.Sink result sink.old sink.new buffer.old buffer.new
        (history_lines (network_of bundle.now) entries.now side history) }
{
    if history {
        print_history(sink, buffer, bundle, entries, side)
    } else {
        Ok(())
    }
}

/// Prints the first line, and the history where it is asked for.
fn print_front<K: Sink>(
    sink: &mut K,
    buffer: &mut LineBuffer,
    bundle: &Bundle,
    entries: &[Entry],
    history: bool,
    side: Option<u8>,
) -> Result<(), WriteFailed>
    requires placed { All (λ e. e.device < length bundle.now.devices.items) entries.now }
    ensures printed { IsPrinted K.Sink result sink.old sink.new buffer.old buffer.new
        (first_line side ++ history_lines (network_of bundle.now) entries.now side history) }
{
    print_first(sink, buffer, side)?;
    print_asked(sink, buffer, bundle, entries, history, side)
}

/// Prints the report, and writes all that waits.
fn print_report<K: Sink, R: Results>(
    sink: &mut K,
    buffer: &mut LineBuffer,
    bundle: &Bundle,
    results: &R,
    entries: &[Entry],
    history: bool,
    side: Option<u8>,
) -> Result<(), WriteFailed>
    requires told { (told : RunResults) × Tells R.Results results.now (network_of bundle.now) told }
    requires placed { All (λ e. e.device < length bundle.now.devices.items) entries.now }
    ensures printed { (told : RunResults) → Tells R.Results results.now (network_of bundle.now) told
        → IsPrinted K.Sink result sink.old sink.new buffer.old buffer.new
        (report_text (network_of bundle.now) told entries.now history side) }
    ensures empty { OnOk result (buffer.new ≡ []) }
{
    print_front(sink, buffer, bundle, entries, history, side)?;
    print_hosts(sink, buffer, bundle, results, side)?;
    print_devices(sink, buffer, bundle, results, side)?;
    print_last(sink, buffer, &[LineWord::Text(b"end")])
}

/// Writes the report.
fn write_report<K: Sink, R: Results>(
    sink: &mut K,
    bundle: &Bundle,
    results: &R,
    entries: &[Entry],
    history: bool,
    side: Option<u8>,
) -> Result<(), WriteFailed>
    requires told { (told : RunResults) × Tells R.Results results.now (network_of bundle.now) told }
    requires placed { All (λ e. e.device < length bundle.now.devices.items) entries.now }
    ensures done { (told : RunResults) → Tells R.Results results.now (network_of bundle.now) told
        → OnOk result (Gains (K.held sink.old) (K.held sink.new) (report_text (network_of bundle.now) told entries.now history side)) }
    ensures part { (told : RunResults) → Tells R.Results results.now (network_of bundle.now) told
        → OnErr result (GainsPart (K.held sink.old) (K.held sink.new) (report_text (network_of bundle.now) told entries.now history side)) }
    ensures cause { OnErr result (FaultsIncreased (K.faults sink.old) (K.faults sink.new)) }
    ensures clean { OnOk result (K.faults sink.new ≡ K.faults sink.old) }
{
    let mut buffer = LineBuffer::new();
    print_report(sink, &mut buffer, bundle, results, entries, history, side)
}

/// Writes the report of a run of a bundle, line by line: what its hosts' transactions came to, and the rows of its devices'
/// memories; with `history` before them the entries of the journal; with a side of the wire, 0 or 1, only the entries, hosts
/// and devices of that side. It takes no memory.
///
/// Where the sink fails, a first part of the report was written.
pub fn print<K: Sink, R: Results>(
    sink: &mut K,
    bundle: &Bundle,
    results: &R,
    journal: &Journal,
    history: bool,
    side: Option<u8>,
) -> Printed
    requires told { (told : RunResults) × R.tells results.now told × FitsNetwork (network_of bundle.now) told }
    requires placed { All (λ e. e.device < length bundle.now.devices.items) journal.now.entries }
    ensures done { (told : RunResults) → R.tells results.now told → FitsNetwork (network_of bundle.now) told → result ≡ Printed.Done
        → Gains (K.held sink.old) (K.held sink.new) (report_text (network_of bundle.now) told journal.now.entries history side) }
    ensures part { (told : RunResults) → R.tells results.now told → FitsNetwork (network_of bundle.now) told → result ≡ Printed.Failed
        → GainsPart (K.held sink.old) (K.held sink.new) (report_text (network_of bundle.now) told journal.now.entries history side) }
    ensures cause { result ≡ Printed.Failed → FaultsIncreased (K.faults sink.old) (K.faults sink.new) }
    ensures clean { result ≡ Printed.Done → K.faults sink.new ≡ K.faults sink.old }
{
    came_to(write_report(sink, bundle, results, journal.entries(), history, side))
}
