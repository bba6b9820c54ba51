//! What the numbers of a slot are tested for. Each test answers the fault that `specs/` gives the same name.

ghost use Rattle.std.specs.Prelude.{◌≡◌, ◌≤◌, ◌<◌, ◌+◌, ◌-◌, ◌%◌, ◌^◌, ◌==◌, not, drop, length, replicate, IfSome, OnOk};
ghost use Rattle.std.specs.List.{position_from};
ghost use Rattle.std.specs.Result.{result_err};
ghost use Rattle.sb_packet.specs.Memories.{bytes_of_number};
ghost use Rattle.sb_slot.specs.SlotFaults.{address_fault, bytes_fault, padding_fault, range_fault, reserved_fault, unaligned_fault};
ghost use Rattle.sb_slot.specs.Slots.{body_in, number_bytes};

use crate::item_fault::ItemFault;
use crate::slot_body::{bytes_of, is_padded};
use sb_packet::{ADDRESS_END, BODY_BYTES};

pub fn check_span(span: u32) -> Result<(), ItemFault>
    ensures fits { OnOk result (span ≤ 32) }
    ensures fault { result_err result ≡ bytes_fault span }
{
    if span > BODY_BYTES as u32 {
        return Err(ItemFault::Bytes { count: span });
    }
    Ok(())
}

pub fn check_addresses(span: u32, size: u64, dst: u64, src: u64) -> Result<(), ItemFault>
    requires size { 0 < size }
    requires span { span ≤ 32 }
    ensures dst_in_range { OnOk result (dst + span ≤ 2 ^ 56) }
    ensures src_in_range { OnOk result (src + span ≤ 2 ^ 56) }
    ensures dst_aligned { OnOk result (dst % size ≡ 0) }
    ensures src_aligned { OnOk result (src % size ≡ 0) }
    ensures fault { result_err result ≡ address_fault span size dst src }
{
    check_range(span, dst)?;
    check_range(span, src)?;
    check_alignment(size, dst)?;
    check_alignment(size, src)
}

fn check_range(span: u32, address: u64) -> Result<(), ItemFault>
    requires { span ≤ 32 }
    ensures in_range { OnOk result (address + span ≤ 2 ^ 56) }
    ensures fault { result_err result ≡ range_fault span address }
{
    if address > ADDRESS_END - u64::from(span) {
        return Err(ItemFault::Range { address });
    }
    Ok(())
}

fn check_alignment(size: u64, address: u64) -> Result<(), ItemFault>
    requires { 0 < size }
    ensures aligned { OnOk result (address % size ≡ 0) }
    ensures fault { result_err result ≡ unaligned_fault size address }
{
    if address % size != 0 {
        return Err(ItemFault::Unaligned { address });
    }
    Ok(())
}

/// The bytes of a body behind those that are carried are 0.
pub fn check_body(slot: &[u64; 8], body: &[u8; 32], carried: u32) -> Result<(), ItemFault>
    requires body { body.now ≡ body_in slot.now }
    requires carried { carried ≤ 32 }
    ensures padding { OnOk result (drop carried body.now ≡ replicate (32 - carried) 0) }
    ensures fault { result_err result ≡ padding_fault (24 + carried) (drop carried body.now) }
{
    if is_padded(slot, carried) {
        return Ok(());
    }
    check_zeros(&body[carried as usize..], 24 + carried as u8)
}

/// A Close's command word is 0.
pub fn check_word(word: u32) -> Result<(), ItemFault>
    ensures zero { OnOk result (word ≡ 0) }
    ensures fault { result_err result ≡ padding_fault 0 (bytes_of_number 4 word) }
{
    check_zeros(&word.to_le_bytes(), 0)
}

/// A Close's address is 0; its first byte has that place in the slot.
pub fn check_number(number: u64, place: u8) -> Result<(), ItemFault>
    requires { place ≤ 48 }
    ensures zero { OnOk result (number ≡ 0) }
    ensures fault { result_err result ≡ padding_fault place (number_bytes number) }
{
    check_zeros(&bytes_of(number), place)
}

/// All bytes are 0; the first of them has that place in the slot.
pub fn check_zeros(bytes: &[u8], place: u8) -> Result<(), ItemFault>
    requires { place + length bytes.now ≤ 56 }
    ensures zeros { OnOk result (bytes.now ≡ replicate (length bytes.now) 0) }
    ensures fault { result_err result ≡ padding_fault place bytes.now }
{
    match first_nonzero(bytes) {
        Some(at) => Err(ItemFault::Padding {
            at: place + at as u8,
        }),
        None => Ok(()),
    }
}

fn first_nonzero(bytes: &[u8]) -> Option<usize>
    ensures at { result ≡ position_from (λ b. not (b == 0)) 0 bytes.now }
    ensures within { IfSome result (λ k. k < length bytes.now) }
{
    bytes.iter().position(|b| *b != 0)
}

pub fn check_last(number: u64) -> Result<(), ItemFault>
    ensures zero { OnOk result (number ≡ 0) }
    ensures fault { result_err result ≡ reserved_fault number }
{
    if number != 0 {
        return Err(ItemFault::Reserved { value: number });
    }
    Ok(())
}
