//! Slots: what goes over a ring, as eight numbers of 64 bits.

ghost use Rattle.std.specs.Prelude.{◌≡◌, ◌≤◌, ◌<◌, ◌+◌, ◌-◌, ◌/◌, ◌%◌, ◌^◌, drop, length, replicate, IfOk, OnOk};
ghost use Rattle.std.specs.Option.{option_map};
ghost use Rattle.std.specs.Result.{result_err};
ghost use Rattle.sb_word.specs.Faults.{word_fault};
ghost use Rattle.sb_word.specs.Words.{IsWordOf};
ghost use Rattle.sb_slot.specs.SlotFaults.{carried_in, close_fault, packet_fault, size_in, slot_fault, span_in};
ghost use Rattle.sb_slot.specs.Slots.{flag_in, slot_of, IsPacketSlot, IsSlotOf};
ghost use Rattle.sb_packet.specs.Spans.{carried_of, span_of};
ghost use Rattle.sb_packet.specs.declared.item.Item.{Item};
ghost use Rattle.sb_packet.specs.declared.item.Item.TheVariants as items;
ghost use Rattle.sb_slot.specs.declared.item_fault.ItemFault.TheVariants.{Word};

use crate::item_fault::ItemFault;
use crate::slot_body::{body_from, number_at};
use crate::slot_checks::{
    check_addresses, check_body, check_last, check_number, check_span, check_word, check_zeros,
};
use sb_packet::{Item, Packet, carried_span, span};
use sb_word::{Cmd, decode, encode};

/// The slot of an item.
///
/// Number 0 has the command word in its low half, and in its high half 1 for a packet or 2 for a Close. Numbers 1 and
/// 2 are `dst` and `src`, numbers 3 to 6 the body, the lowest byte first, and number 7 is 0. A Close has zeros there.
pub fn to_slot(item: &Item) -> [u64; 8]
    ensures slot { IsSlotOf result item.now }
    ensures numbers { result ≡ slot_of item.now }
{
    match item {
        Item::Packet(packet) => packet_slot(packet),
        Item::Close => [2 << 32, 0, 0, 0, 0, 0, 0, 0],
    }
}

/// The item of a slot, or the first fault of the slot: `Flag`, then `Word`, `Bytes`, `Range` of `dst` and of `src`,
/// `Unaligned` of both, `Padding` and `Reserved`.
pub fn from_slot(slot: &[u64; 8]) -> Result<Item, ItemFault>
    ensures item { IfOk result (λ i. IsSlotOf slot.now i) }
    ensures numbers { IfOk result (λ i. slot.now ≡ slot_of i) }
    ensures fault { result_err result ≡ slot_fault slot.now }
    ensures whole { (i : Item) → IsSlotOf slot.now i → result ≡ Ok i }
{
    match high_half(slot[0]) {
        1 => Ok(Item::Packet(packet_from(slot)?)),
        2 => {
            check_close(slot)?;
            Ok(Item::Close)
        }
        value => Err(ItemFault::Flag { value }),
    }
}

fn packet_slot(packet: &Packet) -> [u64; 8]
    ensures slot { IsPacketSlot result packet.now }
    ensures numbers { result ≡ slot_of (items.Packet packet.now) }
{
    [
        u64::from(encode(&packet.cmd)) + (1 << 32),
        packet.dst,
        packet.src,
        number_at(&packet.body, 0),
        number_at(&packet.body, 8),
        number_at(&packet.body, 16),
        number_at(&packet.body, 24),
        0,
    ]
}

fn packet_from(slot: &[u64; 8]) -> Result<Packet, ItemFault>
    requires { flag_in slot.now ≡ 1 }
    ensures packet { IfOk result (λ p. IsPacketSlot slot.now p) }
    ensures numbers { IfOk result (λ p. slot.now ≡ slot_of (items.Packet p)) }
    ensures fault { result_err result ≡ packet_fault slot.now }
{
    let cmd = command_from(low_half(slot[0]))?;
    let span = span(&cmd);
    check_span(span)?;
    check_addresses(span, word_size(&cmd), slot[1], slot[2])?;
    let body = body_from(slot);
    check_body(slot, &body, carried_span(&cmd))?;
    check_last(slot[7])?;
    Ok(packet(cmd, slot[1], slot[2], body))
}

fn check_close(slot: &[u64; 8]) -> Result<(), ItemFault>
    requires { flag_in slot.now ≡ 2 }
    ensures close { OnOk result (slot.now ≡ slot_of items.Close) }
    ensures fault { result_err result ≡ close_fault slot.now }
{
    check_word(low_half(slot[0]))?;
    check_number(slot[1], 8)?;
    check_number(slot[2], 16)?;
    check_zeros(&body_from(slot), 24)?;
    check_last(slot[7])
}

fn low_half(number: u64) -> u32
    ensures { result ≡ number % 2 ^ 32 }
{
    (number & 0xffff_ffff) as u32
}

fn high_half(number: u64) -> u32
    ensures { result ≡ number / 2 ^ 32 }
{
    (number >> 32) as u32
}

fn command_from(word: u32) -> Result<Cmd, ItemFault>
    ensures command { IfOk result (λ c. IsWordOf word c) }
    ensures size { IfOk result (λ c. size_in word ≡ 2 ^ c.size) }
    ensures span { IfOk result (λ c. span_in word ≡ span_of c) }
    ensures carried { IfOk result (λ c. carried_in word ≡ carried_of c) }
    ensures fault { result_err result ≡ option_map Word (word_fault word) }
{
    match decode(word) {
        Ok(cmd) => Ok(cmd),
        Err(fault) => Err(ItemFault::Word(fault)),
    }
}

/// How many bytes a command's word has.
fn word_size(cmd: &Cmd) -> u64
    ensures { result ≡ 2 ^ cmd.now.size }
{
    1 << cmd.size
}

fn packet(cmd: Cmd, dst: u64, src: u64, body: [u8; 32]) -> Packet
    requires whole { length body ≡ 32 }
    requires fits { span_of cmd ≤ 32 }
    requires dst_aligned { dst % 2 ^ cmd.size ≡ 0 }
    requires src_aligned { src % 2 ^ cmd.size ≡ 0 }
    requires dst_in_range { dst + span_of cmd ≤ 2 ^ 56 }
    requires src_in_range { src + span_of cmd ≤ 2 ^ 56 }
    requires padding { drop (carried_of cmd) body ≡ replicate (32 - carried_of cmd) 0 }
    ensures cmd { result.cmd ≡ cmd }
    ensures dst { result.dst ≡ dst }
    ensures src { result.src ≡ src }
    ensures body { result.body ≡ body }
{
    Packet {
        cmd,
        dst,
        src,
        body,
    }
}

#[cfg(test)]
mod tests;
