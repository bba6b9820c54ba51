//! The lines of devices and of the rows of their memories, compared with those of a report.

ghost use Rattle.std.specs.Prelude.{◌≡◌, ◌≤◌, ◌<◌, ◌*◌, ◌^◌, ◌==◌, [], ◌∷◌, None, codes, decimal, length, slice_index_or};
ghost use Rattle.std.specs.List.{list_all};
ghost use Rattle.hex.specs.Hex.{encode_lower};
ghost use Rattle.sb_packet.specs.Answers.{RunResults};
ghost use Rattle.sb_flow.specs.NetworkOf.{network_of};
ghost use Rattle.sb_flow.specs.Rows.{device_of};
ghost use Rattle.sb_text.specs.Reports.{device_lines, device_part, devices_text, image_lines, row_line};
ghost use Rattle.sb_text.specs.Telling.{Tells};
ghost use Rattle.sb_text.specs.TextLines.{hex_number, text_line};
ghost use Rattle.sb_check.specs.Comparing.{IsCompared};

use crate::line_piece::LinePiece;
use crate::unread::{Differs, Unread, lower_digit};
use crate::whole_lines::take_line;
use sb_flow::{Bundle, DevicePlan};
use sb_text::Results;

/// The bytes that one row of a memory has.
const ROW_BYTES: usize = 32;

fn is_zero(row: &[u8]) -> bool
    ensures { result ≡ list_all (λ b. b == 0) row.now }
{
    row.iter().all(|b| *b == 0)
}

/// An offset below `2^20` in five hexadecimal digits.
fn offset_digits(offset: u32) -> [u8; 5]
    ensures { result ≡ hex_number 5 offset }
{
    [
        lower_digit((offset / 16 / 16 / 16 / 16 % 16) as u8),
        lower_digit((offset / 16 / 16 / 16 % 16) as u8),
        lower_digit((offset / 16 / 16 % 16) as u8),
        lower_digit((offset / 16 % 16) as u8),
        lower_digit((offset % 16) as u8),
    ]
}

/// Takes off the line of a row with bytes that aren't 0.
fn take_bytes(text: &mut Unread<'_>, offset: u32, row: &[u8]) -> Result<(), Differs>
    ensures compared { IsCompared result text.old.rest.now text.new.rest.now
        (text_line (codes "m" ∷ hex_number 5 offset ∷ encode_lower row.now ∷ [])) }
{
    let digits = offset_digits(offset);
    let pieces = [
        LinePiece::Text(b"m"),
        LinePiece::Text(&digits),
        LinePiece::Digits(row),
    ];
    take_line(text, &pieces)
}

/// Takes off the line of row `k` of a memory, which has none if it is all zeros.
fn take_row(text: &mut Unread<'_>, k: u32, row: &[u8]) -> Result<(), Differs>
    requires { k * 32 < 2 ^ 32 }
    ensures compared { IsCompared result text.old.rest.now text.new.rest.now (row_line k row.now) }
{
    if is_zero(row) {
        return Ok(());
    }
    take_bytes(text, k * ROW_BYTES as u32, row)
}

/// Takes off the lines of a memory's rows.
fn take_image(text: &mut Unread<'_>, bytes: &[u8]) -> Result<(), Differs>
    requires { length bytes.now ≤ 1048576 }
    ensures compared { IsCompared result text.old.rest.now text.new.rest.now (image_lines bytes.now) }
{
    for k in 0..bytes.len() / ROW_BYTES {
        take_row(
            text,
            k as u32,
            &bytes[k * ROW_BYTES..k * ROW_BYTES + ROW_BYTES],
        )?;
    }
    Ok(())
}

/// Takes off the first line of a device.
fn take_device_name(text: &mut Unread<'_>, plan: &DevicePlan) -> Result<(), Differs>
    ensures compared { IsCompared result text.old.rest.now text.new.rest.now
        (text_line (codes "device" ∷ plan.now.name ∷ decimal plan.now.pages ∷ [])) }
{
    let pieces = [
        LinePiece::Text(b"device"),
        LinePiece::Text(plan.name.as_slice()),
        LinePiece::Number(u64::from(plan.pages)),
    ];
    take_line(text, &pieces)
}

/// Takes off the lines of a device and of the rows of its memory.
fn take_device(text: &mut Unread<'_>, plan: &DevicePlan, bytes: &[u8]) -> Result<(), Differs>
    requires { length bytes.now ≤ 1048576 }
    ensures compared { IsCompared result text.old.rest.now text.new.rest.now (device_lines (device_of plan.now) bytes.now) }
{
    take_device_name(text, plan)?;
    take_image(text, bytes)
}

/// Takes off the lines of the device at a place.
fn take_device_at<R: Results>(
    text: &mut Unread<'_>,
    bundle: &Bundle,
    results: &R,
    device: u8,
) -> Result<(), Differs>
    requires there { device < length bundle.now.devices.items }
    requires told { (told : RunResults) × Tells R.Results results.now (network_of bundle.now) told }
    ensures compared { (told : RunResults) (none : DevicePlan) → Tells R.Results results.now (network_of bundle.now) told
        → IsCompared result text.old.rest.now text.new.rest.now
        (device_part (network_of bundle.now) told None device (device_of (slice_index_or bundle.now.devices.items device none))) }
{
    take_device(
        text,
        &bundle.devices[usize::from(device)],
        results.image(device),
    )
}

/// Takes off the lines of all devices.
pub fn take_devices<R: Results>(
    text: &mut Unread<'_>,
    bundle: &Bundle,
    results: &R,
) -> Result<(), Differs>
    requires told { (told : RunResults) × Tells R.Results results.now (network_of bundle.now) told }
    ensures compared { (told : RunResults) → Tells R.Results results.now (network_of bundle.now) told
        → IsCompared result text.old.rest.now text.new.rest.now (devices_text (network_of bundle.now) told None) }
{
    for device in 0..bundle.devices.len() {
        take_device_at(text, bundle, results, device as u8)?;
    }
    Ok(())
}
