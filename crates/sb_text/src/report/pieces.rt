//! The pieces of a report's lines, each put behind what waits to be written.

ghost use Rattle.std.specs.Prelude.{◌≡◌, ◌≤◌, ◌<◌, ◌+◌, ◌*◌, ◌^◌, ◌++◌, [], ◌∷◌, codes, decimal, length, slice_index};
ghost use Rattle.hex.specs.Hex.{encode_lower, lower_digits};
ghost use Rattle.sb_text.specs.TextLines.{hex_number, text_line};
ghost use Rattle.sb_text.specs.Reports.{code_text, entry_front, entry_middle, state_front, state_text};

use crate::report::line_buffer::LineBuffer;
use itoa::Buffer;
use sb_packet::{Code, TxnState};

/// Puts a number in decimal digits.
pub fn push_number(buffer: &mut LineBuffer, n: u64)
    requires { length buffer.old + 40 ≤ 8192 }
    ensures text { buffer.new ≡ buffer.old ++ decimal n }
    ensures short { length buffer.new ≤ length buffer.old + 40 }
{
    let mut digits = Buffer::new();
    buffer.push(digits.format(n).as_bytes());
}

/// The digit of a number below 16.
fn hex_digit(n: u32) -> u8
    requires { n < 16 }
    ensures { result ≡ slice_index lower_digits n }
{
    b"0123456789abcdef"[n as usize]
}

/// Puts an offset in five hexadecimal digits.
fn push_offset(buffer: &mut LineBuffer, offset: u32)
    requires { length buffer.old + 5 ≤ 8192 }
    ensures text { buffer.new ≡ buffer.old ++ hex_number 5 offset }
    ensures len { length buffer.new ≡ length buffer.old + 5 }
{
    let digits = [
        hex_digit(offset / 16 / 16 / 16 / 16 % 16),
        hex_digit(offset / 16 / 16 / 16 % 16),
        hex_digit(offset / 16 / 16 % 16),
        hex_digit(offset / 16 % 16),
        hex_digit(offset % 16),
    ];
    buffer.push(&digits);
}

/// Puts a blank, and a command word in eight hexadecimal digits.
fn push_word(buffer: &mut LineBuffer, word: u32)
    requires { length buffer.old + 9 ≤ 8192 }
    ensures text { buffer.new ≡ buffer.old ++ 32 ∷ hex_number 8 word }
    ensures len { length buffer.new ≡ length buffer.old + 9 }
{
    buffer.push(b" ");
    buffer.push_hex(&[
        (word / 256 / 256 / 256 % 256) as u8,
        (word / 256 / 256 % 256) as u8,
        (word / 256 % 256) as u8,
        (word % 256) as u8,
    ]);
}

/// Puts a blank, and an address in 14 hexadecimal digits.
fn push_address(buffer: &mut LineBuffer, address: u64)
    requires { length buffer.old + 15 ≤ 8192 }
    ensures text { buffer.new ≡ buffer.old ++ 32 ∷ hex_number 14 address }
    ensures len { length buffer.new ≡ length buffer.old + 15 }
{
    buffer.push(b" ");
    buffer.push_hex(&[
        (address / 256 / 256 / 256 / 256 / 256 / 256 % 256) as u8,
        (address / 256 / 256 / 256 / 256 / 256 % 256) as u8,
        (address / 256 / 256 / 256 / 256 % 256) as u8,
        (address / 256 / 256 / 256 % 256) as u8,
        (address / 256 / 256 % 256) as u8,
        (address / 256 % 256) as u8,
        (address % 256) as u8,
    ]);
}

fn code_word(code: Code) -> &'static [u8]
    ensures text { result.now ≡ code_text code }
    ensures short { length result.now ≤ 6 }
{
    match code {
        Code::Ok => b"ok",
        Code::ExOk => b"exok",
        Code::DevErr => b"deverr",
        Code::NetErr => b"neterr",
    }
}

fn state_word(state: TxnState) -> &'static [u8]
    ensures text { result.now ≡ state_text state }
    ensures short { length result.now ≤ 7 }
{
    match state {
        TxnState::Waiting => b"waiting",
        TxnState::Posted => b"posted",
        TxnState::Answered { code } => code_word(code),
    }
}

/// Puts the front of a transaction's line, up to its body.
#[tactic(auto, unfolding(crate::specs::Reports::state_front))]
#[inline(always)]
pub fn push_state(buffer: &mut LineBuffer, index: u32, state: TxnState)
    requires { length buffer.old + 64 ≤ 8192 }
    ensures { buffer.new ≡ buffer.old ++ state_front index state }
{
    buffer.push(b"t ");
    push_number(buffer, u64::from(index));
    buffer.push(b" ");
    buffer.push(state_word(state));
    buffer.push(b" ");
}

/// Puts the line of a row of 32 bytes at an offset.
pub fn push_row(buffer: &mut LineBuffer, offset: u32, row: &[u8])
    requires room { length buffer.old + 128 ≤ 8192 }
    requires row { length row.now ≤ 32 }
    ensures { buffer.new ≡ buffer.old ++ text_line (codes "m" ∷ hex_number 5 offset ∷ encode_lower row.now ∷ []) }
{
    buffer.push(b"m ");
    push_offset(buffer, offset);
    buffer.push(b" ");
    buffer.push_hex(row);
    buffer.push(b"\n");
}

/// Puts the front of an entry's line, up to its device's name.
#[tactic(auto, unfolding(crate::specs::Reports::entry_front))]
pub fn push_round(buffer: &mut LineBuffer, round: u32)
    requires { length buffer.old + 64 ≤ 8192 }
    ensures { buffer.new ≡ buffer.old ++ entry_front round }
{
    buffer.push(b"e ");
    push_number(buffer, u64::from(round));
    buffer.push(b" ");
}

/// Puts what stands between its device's name and its body.
#[tactic(auto, unfolding(crate::specs::Reports::entry_middle))]
pub fn push_addresses(buffer: &mut LineBuffer, word: u32, dst: u64, src: u64)
    requires { length buffer.old + 64 ≤ 8192 }
    ensures { buffer.new ≡ buffer.old ++ entry_middle word dst src }
{
    push_word(buffer, word);
    push_address(buffer, dst);
    push_address(buffer, src);
    buffer.push(b" ");
}
