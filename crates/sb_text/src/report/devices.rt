//! The devices of a report, and the rows of their memories.
#![tactic(auto, using(sb_io::proofs::GainLemmas::part_first, crate::proofs::PrintLemmas::prints_push, crate::proofs::PrintLemmas::prints_then, crate::proofs::PrintLemmas::prints_part, crate::proofs::PrintLemmas::part_before))]

ghost use Rattle.std.specs.Prelude.{◌≡◌, ◌≤◌, ◌<◌, ◌+◌, ◌*◌, ◌^◌, ◌++◌, ◌==◌, [], Option, length, slice_index_or};
ghost use Rattle.std.specs.List.{list_all};
ghost use Rattle.sb_packet.specs.Answers.{RunResults};
ghost use Rattle.sb_flow.specs.NetworkOf.{network_of};
ghost use Rattle.sb_flow.specs.Rows.{device_of};
ghost use Rattle.sb_text.specs.Reports.{device_lines, device_part, devices_text, image_lines, row_line};
ghost use Rattle.sb_text.specs.Printing.{IsPrinted};
ghost use Rattle.sb_text.specs.Telling.{Tells};

use crate::line_word::LineWord;
use crate::report::line_buffer::{LineBuffer, make_room};
use crate::report::pieces::push_row;
use crate::report::sides::shows_device;
use crate::report::words::print_words;
use crate::results::Results;
use sb_flow::{Bundle, DevicePlan};
use sb_io::{Sink, WriteFailed};

/// The bytes that one row of a memory has.
const ROW_BYTES: usize = 32;

/// More than the line of a row has.
const ROW_ROOM: usize = 128;

fn is_zero(row: &[u8]) -> bool
    ensures { result ≡ list_all (λ b. b == 0) row.now }
{
    row.iter().all(|b| *b == 0)
}

/// Prints row `k` of a memory, unless it is all zeros.
fn print_row<K: Sink>(
    sink: &mut K,
    buffer: &mut LineBuffer,
    k: u32,
    row: &[u8],
) -> Result<(), WriteFailed>
    requires place { k * 32 < 2 ^ 32 }
    requires row { length row.now ≤ 32 }
    ensures printed { IsPrinted K.Sink result sink.old sink.new buffer.old buffer.new (row_line k row.now) }
{
    if is_zero(row) {
        return Ok(());
    }
    make_room(sink, buffer, ROW_ROOM)?;
    push_row(buffer, k * ROW_BYTES as u32, row);
    Ok(())
}

/// Prints the rows of a memory, in order.
fn print_image<K: Sink>(
    sink: &mut K,
    buffer: &mut LineBuffer,
    bytes: &[u8],
) -> Result<(), WriteFailed>
    requires { length bytes.now ≤ 1048576 }
    ensures printed { IsPrinted K.Sink result sink.old sink.new buffer.old buffer.new (image_lines bytes.now) }
{
    for k in 0..bytes.len() / ROW_BYTES {
        print_row(
            sink,
            buffer,
            k as u32,
            &bytes[k * ROW_BYTES..k * ROW_BYTES + ROW_BYTES],
        )?;
    }
    Ok(())
}

/// Prints a device and the rows of its memory.
fn print_device<K: Sink>(
    sink: &mut K,
    buffer: &mut LineBuffer,
    plan: &DevicePlan,
    bytes: &[u8],
) -> Result<(), WriteFailed>
    requires { length bytes.now ≤ 1048576 }
    ensures printed { IsPrinted K.Sink result sink.old sink.new buffer.old buffer.new (device_lines (device_of plan.now) bytes.now) }
{
    print_words(
        sink,
        buffer,
        &[
            LineWord::Text(b"device"),
            LineWord::Text(plan.name.as_slice()),
            LineWord::Number(u64::from(plan.pages)),
        ],
    )?;
    print_image(sink, buffer, bytes)
}

/// Prints a device, where it is printed.
fn print_device_part<K: Sink, R: Results>(
    sink: &mut K,
    buffer: &mut LineBuffer,
    bundle: &Bundle,
    results: &R,
    side: Option<u8>,
    device: u8,
) -> Result<(), WriteFailed>
    requires there { device < length bundle.now.devices.items }
    requires told { (told : RunResults) × Tells R.Results results.now (network_of bundle.now) told }
    ensures printed { (told : RunResults) (none : DevicePlan) → Tells R.Results results.now (network_of bundle.now) told
        → IsPrinted K.Sink result sink.old sink.new buffer.old buffer.new
        (device_part (network_of bundle.now) told side device (device_of (slice_index_or bundle.now.devices.items device none))) }
{
    if shows_device(bundle, side, device) {
        print_device(
            sink,
            buffer,
            &bundle.devices[usize::from(device)],
            results.image(device),
        )
    } else {
        Ok(())
    }
}

/// Prints the devices, in order.
pub fn print_devices<K: Sink, R: Results>(
    sink: &mut K,
    buffer: &mut LineBuffer,
    bundle: &Bundle,
    results: &R,
    side: Option<u8>,
) -> Result<(), WriteFailed>
    requires told { (told : RunResults) × Tells R.Results results.now (network_of bundle.now) told }
    ensures printed { (told : RunResults) → Tells R.Results results.now (network_of bundle.now) told
        → IsPrinted K.Sink result sink.old sink.new buffer.old buffer.new (devices_text (network_of bundle.now) told side) }
{
    for device in 0..bundle.devices.len() {
        print_device_part(sink, buffer, bundle, results, side, device as u8)?;
    }
    Ok(())
}
