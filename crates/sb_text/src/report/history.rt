//! The history of a report: the entries of a journal.
#![tactic(auto, using(sb_io::proofs::GainLemmas::part_first, crate::proofs::PrintLemmas::prints_push, crate::proofs::PrintLemmas::prints_then, crate::proofs::PrintLemmas::prints_part, crate::proofs::PrintLemmas::part_before))]

ghost use Rattle.std.specs.Prelude.{◌≡◌, ◌≤◌, ◌<◌, ◌++◌, [], ◌∷◌, All, filter, flat_map, length, true};
ghost use Rattle.sb_flow.specs.NetworkOf.{network_of};
ghost use Rattle.sb_text.specs.TextLines.{body_text};
ghost use Rattle.sb_text.specs.Reports.{entry_front, entry_middle, entry_part, history_lines, is_shown as is_shown_by, packet_text};
ghost use Rattle.sb_text.specs.Printing.{IsPrinted};
ghost use Rattle.sb_packet.specs.Messages.{message_of};
ghost use Rattle.sb_word.specs.Words.{word_of};

use crate::line_word::LineWord;
use crate::report::line_buffer::{LineBuffer, make_room};
use crate::report::pieces::{push_addresses, push_round};
use crate::report::printing::{print_body, print_short, print_text};
use crate::report::sides::shown_devices;
use crate::report::words::print_words;
use sb_flow::Bundle;
use sb_io::{Sink, WriteFailed};
use sb_packet::{Entry, Packet, carried};
use sb_word::encode;

/// More than any piece of an entry's line has.
const PIECE_ROOM: usize = 64;

/// Prints the front of an entry's line.
fn print_round<K: Sink>(
    sink: &mut K,
    buffer: &mut LineBuffer,
    round: u32,
) -> Result<(), WriteFailed>
    ensures printed { IsPrinted K.Sink result sink.old sink.new buffer.old buffer.new (entry_front round) }
{
    make_room(sink, buffer, PIECE_ROOM)?;
    push_round(buffer, round);
    Ok(())
}

/// Prints what stands between its device's name and its body.
fn print_addresses<K: Sink>(
    sink: &mut K,
    buffer: &mut LineBuffer,
    packet: &Packet,
) -> Result<(), WriteFailed>
    ensures printed { IsPrinted K.Sink result sink.old sink.new buffer.old buffer.new
        (entry_middle (word_of packet.now.cmd) packet.now.dst packet.now.src) }
{
    make_room(sink, buffer, PIECE_ROOM)?;
    push_addresses(buffer, encode(&packet.cmd), packet.dst, packet.src);
    Ok(())
}

/// Prints the rest of it.
fn print_rest<K: Sink>(
    sink: &mut K,
    buffer: &mut LineBuffer,
    body: &[u8],
) -> Result<(), WriteFailed>
    ensures printed { IsPrinted K.Sink result sink.old sink.new buffer.old buffer.new (body_text body.now ++ 10 ∷ []) }
{
    print_body(sink, buffer, body)?;
    print_short(sink, buffer, b"\n")
}

/// Prints what stands behind its device's name.
fn print_packet<K: Sink>(
    sink: &mut K,
    buffer: &mut LineBuffer,
    packet: &Packet,
) -> Result<(), WriteFailed>
    ensures printed { IsPrinted K.Sink result sink.old sink.new buffer.old buffer.new (packet_text packet.now) }
{
    print_addresses(sink, buffer, packet)?;
    print_rest(sink, buffer, carried(packet))
}

/// Prints an entry's line from its device's name on.
fn print_place<K: Sink>(
    sink: &mut K,
    buffer: &mut LineBuffer,
    name: &[u8],
    packet: &Packet,
) -> Result<(), WriteFailed>
    ensures printed { IsPrinted K.Sink result sink.old sink.new buffer.old buffer.new (name.now ++ packet_text packet.now) }
{
    print_text(sink, buffer, name)?;
    print_packet(sink, buffer, packet)
}

/// Prints the line of an entry of a device with that name.
fn print_entry<K: Sink>(
    sink: &mut K,
    buffer: &mut LineBuffer,
    name: &[u8],
    entry: &Entry,
) -> Result<(), WriteFailed>
    ensures printed { IsPrinted K.Sink result sink.old sink.new buffer.old buffer.new
        (entry_front entry.now.round ++ (name.now ++ packet_text entry.now.packet)) }
{
    print_round(sink, buffer, entry.round)?;
    print_place(sink, buffer, name, &entry.packet)
}

/// Whether an entry is of a device that is printed.
fn is_shown(shown: &[bool], entry: &Entry) -> bool
    ensures { result ≡ is_shown_by shown.now entry.now }
{
    match shown.get(usize::from(entry.device)) {
        Some(is_shown) => *is_shown,
        None => false,
    }
}

/// How many entries are of devices that are printed.
fn shown_count(shown: &[bool], entries: &[Entry]) -> usize
    ensures { result ≡ length (filter (λ e. is_shown_by shown.now e) entries.now) }
{
    entries.iter().filter(|e| is_shown(shown, e)).count()
}

/// Prints the line of an entry, where its device is printed.
fn print_entry_part<K: Sink>(
    sink: &mut K,
    buffer: &mut LineBuffer,
    bundle: &Bundle,
    shown: &[bool],
    entry: &Entry,
) -> Result<(), WriteFailed>
    requires { entry.now.device < length bundle.now.devices.items }
    ensures printed { IsPrinted K.Sink result sink.old sink.new buffer.old buffer.new
        (entry_part (network_of bundle.now) shown.now entry.now) }
{
    if !is_shown(shown, entry) {
        return Ok(());
    }
    let device = &bundle.devices[usize::from(entry.device)];
    print_entry(sink, buffer, device.name.as_slice(), entry)
}

/// Prints the lines of those entries whose devices are printed, in order.
fn print_entries<K: Sink>(
    sink: &mut K,
    buffer: &mut LineBuffer,
    bundle: &Bundle,
    shown: &[bool],
    entries: &[Entry],
) -> Result<(), WriteFailed>
    requires placed { All (λ e. e.device < length bundle.now.devices.items) entries.now }
    ensures printed { IsPrinted K.Sink result sink.old sink.new buffer.old buffer.new
        (flat_map (entry_part (network_of bundle.now) shown.now) entries.now) }
{
    for index in 0..entries.len() {
        print_entry_part(sink, buffer, bundle, shown, &entries[index])?;
    }
    Ok(())
}

/// Prints the history: how many entries are printed, and a line for each.
pub fn print_history<K: Sink>(
    sink: &mut K,
    buffer: &mut LineBuffer,
    bundle: &Bundle,
    entries: &[Entry],
    side: Option<u8>,
) -> Result<(), WriteFailed>
    requires placed { All (λ e. e.device < length bundle.now.devices.items) entries.now }
    ensures printed { IsPrinted K.Sink result sink.old sink.new buffer.old buffer.new
        (history_lines (network_of bundle.now) entries.now side true) }
{
    let shown = shown_devices(bundle, side);
    let count = shown_count(&shown, entries);
    print_words(
        sink,
        buffer,
        &[LineWord::Text(b"history"), LineWord::Number(count as u64)],
    )?;
    print_entries(sink, buffer, bundle, &shown, entries)
}
