//! The line of an entry: what it spells.

ghost use Rattle.std.specs.Prelude.{◌≡◌, ◌≢◌, ◌≤◌, ◌<◌, ◌+◌, ◌-◌, ◌*◌, ◌%◌, ◌^◌, ◌++◌, ℕ, List, [], ◌∷◌, All, Some, codes, decimal, drop, length, map, replicate, slice_index_or, bytes_eq, IfSome, IsSomeAnd};
ghost use Rattle.std.specs.Bool.{OnFalse, OnTrue};
ghost use Rattle.std.specs.List.{position_from};
ghost use Rattle.hex.specs.Hex.{encode_lower};
ghost use Rattle.sb_word.specs.Words.{word_of};
ghost use Rattle.sb_packet.specs.Messages.{message_of};
ghost use Rattle.sb_packet.specs.Spans.{carried_of, span_of};
ghost use Rattle.sb_packet.specs.declared.entry.Entry.{Entry};
ghost use Rattle.sb_packet.specs.declared.packet.Packet.{Packet};
ghost use Rattle.sb_flow.specs.NetworkOf.{network_of};
ghost use Rattle.sb_text.specs.Reports.{entry_line};
ghost use Rattle.sb_text.specs.TextLines.{body_text, hex_number, text_line};
ghost use Rattle.sb_text.specs.Numerals.{digits_number};
ghost use Rattle.sb_check.specs.Spelling.{SpellsEntry, packet_words};

use crate::line_piece::LinePiece;
use crate::line_words::LineWords;
use crate::unread::{Unread, are_same};
use sb_flow::{Bundle, DevicePlan};
use sb_packet::{ADDRESS_END, BODY_BYTES, Entry, Packet, carried, carried_span, padded, span};
use sb_text::number;
use sb_word::{Cmd, decode, encode, words_are_exact};

/// The numbers that an entry's line has in hexadecimal digits.
#[derive(Clone, Copy, Debug)]
struct Numbers {
    word: u32,
    dst: u64,
    src: u64,
}

/// The four bytes of a command word, the highest first.
fn word_bytes(word: u32) -> [u8; 4]
    ensures { encode_lower result ≡ hex_number 8 word }
{
    [
        (word / 256 / 256 / 256 % 256) as u8,
        (word / 256 / 256 % 256) as u8,
        (word / 256 % 256) as u8,
        (word % 256) as u8,
    ]
}

/// The lowest seven bytes of an address, the highest first.
fn address_bytes(address: u64) -> [u8; 7]
    ensures { encode_lower result ≡ hex_number 14 address }
{
    [
        (address / 256 / 256 / 256 / 256 / 256 / 256 % 256) as u8,
        (address / 256 / 256 / 256 / 256 / 256 % 256) as u8,
        (address / 256 / 256 / 256 / 256 % 256) as u8,
        (address / 256 / 256 / 256 % 256) as u8,
        (address / 256 / 256 % 256) as u8,
        (address / 256 % 256) as u8,
        (address % 256) as u8,
    ]
}

/// The round of an entry's line, behind its first word.
fn round(words: &mut LineWords<'_>) -> Option<u32>
    ensures only { (n : ℕ) (behind : List ℕ) → n < 2 ^ 32
        → words.old.rest.now ≡ codes "e" ++ 32 ∷ (decimal n ++ 32 ∷ behind)
        → (result ≡ Some n) × (words.new.rest.now ≡ behind) }
{
    words.front()?;
    let n = number(words.front()?, 10, 10)?;
    if n > u64::from(u32::MAX) {
        return None;
    }
    Some(n as u32)
}

/// The command word and both addresses, at the end of what is left.
fn read_numbers(words: &mut LineWords<'_>) -> Option<Numbers>
    ensures only { (a b d front : List ℕ) (word dst src : ℕ) → length a ≡ 8 → length b ≡ 14 → length d ≡ 14
        → digits_number 16 8 a ≡ Some word → digits_number 16 14 b ≡ Some dst → digits_number 16 14 d ≡ Some src → word < 2 ^ 32
        → words.old.rest.now ≡ front ++ 32 ∷ (a ++ 32 ∷ (b ++ 32 ∷ d))
        → (result ≡ Some (record { word = word; dst = dst; src = src })) × (words.new.rest.now ≡ front) }
{
    let src = words.back_number(14)?;
    let dst = words.back_number(14)?;
    let word = words.back_number(8)?;
    if word > u64::from(u32::MAX) {
        return None;
    }
    Some(Numbers {
        word: word as u32,
        dst,
        src,
    })
}

/// A packet with that command, addresses and body.
fn packet(cmd: Cmd, dst: u64, src: u64, body: [u8; BODY_BYTES]) -> Packet
    requires whole { length body ≡ 32 }
    requires fits { span_of cmd ≤ 32 }
    requires dst_aligned { dst % 2 ^ cmd.size ≡ 0 }
    requires src_aligned { src % 2 ^ cmd.size ≡ 0 }
    requires dst_in_range { dst + span_of cmd ≤ 2 ^ 56 }
    requires src_in_range { src + span_of cmd ≤ 2 ^ 56 }
    requires padding { drop (carried_of cmd) body ≡ replicate (32 - carried_of cmd) 0 }
    ensures cmd { result.cmd ≡ cmd }
    ensures dst { result.dst ≡ dst }
    ensures src { result.src ≡ src }
    ensures body { result.body ≡ body }
{
    Packet {
        cmd,
        dst,
        src,
        body,
    }
}

/// So many bytes, 32 at most, from their digits, with zeros behind them.
fn decoded(carried: usize, digits: &[u8]) -> Option<[u8; BODY_BYTES]>
    requires few { carried ≤ 32 }
    requires digits { length digits.now ≡ 2 * carried }
    ensures padded { IfSome result (λ body. (length body ≡ 32) × (drop carried body ≡ replicate (32 - carried) 0)) }
    ensures only { (bytes : List ℕ) → All (λ b. b < 256) bytes → length bytes ≡ carried → digits.now ≡ encode_lower bytes
        → result ≡ Some (bytes ++ replicate (32 - carried) 0) }
{
    let mut room = [0; BODY_BYTES];
    match hex::decode_to_slice(digits, &mut room[..carried]) {
        Ok(()) => Some(padded(&room[..carried])),
        Err(_) => None,
    }
}

/// A body of so many bytes, 32 at most, from its digits and the end of the line, with zeros behind it.
fn body(carried: usize, text: &[u8]) -> Option<[u8; BODY_BYTES]>
    requires { carried ≤ 32 }
    ensures padded { IfSome result (λ body. (length body ≡ 32) × (drop carried body ≡ replicate (32 - carried) 0)) }
    ensures only { (bytes : List ℕ) → All (λ b. b < 256) bytes → length bytes ≡ carried → text.now ≡ body_text bytes ++ 10 ∷ []
        → result ≡ Some (bytes ++ replicate (32 - carried) 0) }
{
    if carried == 0 {
        return Some([0; BODY_BYTES]);
    }
    if text.len() / 2 < carried {
        return None;
    }
    decoded(carried, &text[..2 * carried])
}

/// How many bytes a command's word has.
fn word_size(cmd: &Cmd) -> u64
    ensures value { result ≡ 2 ^ cmd.now.size }
    ensures some { 0 < result }
{
    1 << cmd.size
}

/// Whether a word of `size` bytes may lie at an address, and `span` bytes from there on.
fn is_placed(size: u64, span: u32, address: u64) -> bool
    requires size { 0 < size }
    requires span { span ≤ 32 }
    ensures yes { OnTrue result ((address % size ≡ 0) × (address + span ≤ 2 ^ 56)) }
    ensures no { OnFalse result (address % size ≡ 0 → address + span ≤ 2 ^ 56 → ⊥) }
{
    address % size == 0 && address <= ADDRESS_END - u64::from(span)
}

/// The packet of its numbers and its body's text with the end of the line.
fn packet_of(numbers: Numbers, text: &[u8]) -> Option<Packet>
    ensures only { (p : Packet) → All (λ b. b < 256) p.body
        → numbers.word ≡ word_of p.cmd → numbers.dst ≡ p.dst → numbers.src ≡ p.src
        → text.now ≡ body_text (message_of p).bytes ++ 10 ∷ []
        → result ≡ Some p }
{
    words_are_exact();
    let Ok(cmd) = decode(numbers.word) else {
        return None;
    };
    let span = span(&cmd);
    if span > BODY_BYTES as u32 {
        return None;
    }
    let size = word_size(&cmd);
    if !is_placed(size, span, numbers.dst) {
        return None;
    }
    if !is_placed(size, span, numbers.src) {
        return None;
    }
    let body = body(carried_span(&cmd) as usize, text)?;
    Some(packet(cmd, numbers.dst, numbers.src, body))
}

/// The packet at the end of an entry's line.
fn packet_in(words: &mut LineWords<'_>) -> Option<Packet>
    ensures only { (p : Packet) (front : List ℕ) → All (λ b. b < 256) p.body → words.old.rest.now ≡ front ++ 32 ∷ packet_words p
        → (result ≡ Some p) × (words.new.rest.now ≡ front) }
{
    let body = words.back()?;
    let numbers = read_numbers(words)?;
    packet_of(numbers, body)
}

/// The first device with that name.
fn first_named(devices: &[DevicePlan], name: &[u8]) -> Option<usize>
    ensures place { result ≡ position_from (λ d. bytes_eq d.name name.now) 0 devices.now }
    ensures there { IfSome result (λ place. place < length devices.now) }
{
    devices
        .iter()
        .position(|d| are_same(d.name.as_slice(), name))
}

/// The device with that name.
fn device_named(bundle: &Bundle, name: &[u8]) -> Option<u8>
    ensures only { (d : ℕ) → d < length (network_of bundle.now).devices
        → slice_index_or (map (λ x. x.name) (network_of bundle.now).devices) d [] ≡ name.now
        → result ≡ Some d }
    ensures there { IfSome result (λ d. d < length bundle.now.devices.items) }
{
    let place = first_named(&bundle.devices, name)?;
    Some(place as u8)
}

/// The entry that a line can only spell, if it spells one.
fn entry_in(bundle: &Bundle, line: &[u8]) -> Option<Entry>
    ensures only { (e : Entry) → SpellsEntry (network_of bundle.now) line.now e → result ≡ Some e }
    ensures there { IfSome result (λ e. e.device < length bundle.now.devices.items) }
{
    let mut words = LineWords { rest: line };
    let round = round(&mut words)?;
    let packet = packet_in(&mut words)?;
    let device = device_named(bundle, words.rest)?;
    Some(Entry {
        round,
        device,
        packet,
    })
}

/// Whether a line has the words of an entry's line.
fn has_words<'a>(
    line: &[u8],
    round: u32,
    name: &'a [u8],
    word: &'a [u8],
    dst: &'a [u8],
    src: &'a [u8],
    body: &'a [u8],
) -> bool
    ensures yes { OnTrue result (line.now ≡ text_line (codes "e" ∷ decimal round ∷ name.now
        ∷ encode_lower word.now ∷ encode_lower dst.now ∷ encode_lower src.now ∷ body_text body.now ∷ [])) }
    ensures no { OnFalse result (line.now ≢ text_line (codes "e" ∷ decimal round ∷ name.now
        ∷ encode_lower word.now ∷ encode_lower dst.now ∷ encode_lower src.now ∷ body_text body.now ∷ [])) }
{
    let mut text = Unread { rest: line };
    let pieces = [
        LinePiece::Text(b"e"),
        LinePiece::Number(u64::from(round)),
        LinePiece::Text(name),
        LinePiece::Digits(word),
        LinePiece::Digits(dst),
        LinePiece::Digits(src),
        LinePiece::Body(body),
    ];
    match text.line(&pieces) {
        Ok(()) => text.rest.is_empty(),
        Err(_) => false,
    }
}

/// Whether a line is that of an entry.
fn is_line_of(bundle: &Bundle, line: &[u8], entry: &Entry) -> bool
    requires there { entry.now.device < length bundle.now.devices.items }
    ensures yes { OnTrue result (line.now ≡ entry_line (network_of bundle.now) entry.now) }
    ensures no { OnFalse result (line.now ≢ entry_line (network_of bundle.now) entry.now) }
{
    let packet = &entry.packet;
    let word = word_bytes(encode(&packet.cmd));
    let dst = address_bytes(packet.dst);
    let src = address_bytes(packet.src);
    let device = &bundle.devices[usize::from(entry.device)];
    has_words(
        line,
        entry.round,
        device.name.as_slice(),
        &word,
        &dst,
        &src,
        carried(packet),
    )
}

/// What the types of a round and of a body say of them. It does nothing.
pub fn fit_their_types(round: u32, body: &[u8])
    ensures round { round < 2 ^ 32 }
    ensures bytes { All (λ b. b < 256) body.now }
{
    let _round = round;
    let _body = body;
}

/// The entry that a line spells; None exactly where it spells none.
pub fn read_entry(bundle: &Bundle, line: &[u8]) -> Option<Entry>
    ensures spelled { IfSome result (SpellsEntry (network_of bundle.now) line.now) }
    ensures only { (e : Entry) → SpellsEntry (network_of bundle.now) line.now e → result ≡ Some e }
{
    let entry = entry_in(bundle, line)?;
    if !is_line_of(bundle, line, &entry) {
        return None;
    }
    fit_their_types(entry.round, &entry.packet.body);
    Some(entry)
}
