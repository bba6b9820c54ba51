//! The body of a slot, which four of its numbers hold.

ghost use Rattle.std.specs.Prelude.{◌≡◌, ◌≤◌, ◌-◌, ◌++◌, true, drop, length, replicate, slice_index, take};
ghost use Rattle.sb_packet.specs.Memories.{number_of, overwritten};
ghost use Rattle.sb_slot.specs.Slots.{body_in, body_number, number_bytes};

use sb_packet::BODY_BYTES;

/// Eight bytes of a body as a number.
#[tactic(auto, unfolding(crate::specs::Slots::number_bytes))]
pub fn number_at(body: &[u8; BODY_BYTES], place: usize) -> u64
    requires { place ≤ 24 }
    ensures number { result ≡ body_number place body.now }
    ensures bytes { number_bytes result ≡ take 8 (drop place body.now) }
{
    let mut bytes = [0; 8];
    bytes.copy_from_slice(&body[place..place + 8]);
    u64::from_le_bytes(bytes)
}

/// The body that a slot's numbers hold.
pub fn body_from(slot: &[u64; 8]) -> [u8; BODY_BYTES]
    ensures body { result ≡ body_in slot.now }
    ensures len { length result ≡ 32 }
    ensures first { body_number 0 result ≡ slice_index slot.now 3 }
    ensures second { body_number 8 result ≡ slice_index slot.now 4 }
    ensures third { body_number 16 result ≡ slice_index slot.now 5 }
    ensures fourth { body_number 24 result ≡ slice_index slot.now 6 }
{
    joined(
        &bytes_of(slot[3]),
        &bytes_of(slot[4]),
        &bytes_of(slot[5]),
        &bytes_of(slot[6]),
    )
}

/// Four parts of a body, one after another.
fn joined(first: &[u8; 8], second: &[u8; 8], third: &[u8; 8], fourth: &[u8; 8]) -> [u8; BODY_BYTES]
    ensures { result ≡ first.now ++ second.now ++ third.now ++ fourth.now }
{
    let mut body = [0; BODY_BYTES];
    put(&mut body, 0, first);
    put(&mut body, 8, second);
    put(&mut body, 16, third);
    put(&mut body, 24, fourth);
    body
}

/// Puts eight bytes into a body.
fn put(body: &mut [u8; BODY_BYTES], place: usize, part: &[u8; 8])
    requires { place ≤ 24 }
    ensures { body.new ≡ overwritten body.old place part.now }
{
    body[place..place + 8].copy_from_slice(part);
}

/// The bytes of a number, the lowest first.
pub fn bytes_of(number: u64) -> [u8; 8]
    ensures bytes { result ≡ number_bytes number }
    ensures len { length result ≡ 8 }
    ensures value { number_of result ≡ number }
{
    number.to_le_bytes()
}

/// Behind so many bytes of the body there are only zeros, by its four numbers.
pub fn is_padded(slot: &[u64; 8], carried: u32) -> bool
    requires { carried ≤ 32 }
    ensures zeros { result ≡ true → drop carried (body_in slot.now) ≡ replicate (32 - carried) 0 }
    ensures only { drop carried (body_in slot.now) ≡ replicate (32 - carried) 0 → result ≡ true }
{
    let rest = rest_of(slot[3], carried)
        | rest_of(slot[4], carried.saturating_sub(8))
        | rest_of(slot[5], carried.saturating_sub(16))
        | rest_of(slot[6], carried.saturating_sub(24));
    rest == 0
}

/// A number without its lowest bytes.
fn rest_of(number: u64, bytes: u32) -> u64
    ensures zeros { result ≡ 0 → drop bytes (number_bytes number) ≡ replicate (8 - bytes) 0 }
    ensures only { drop bytes (number_bytes number) ≡ replicate (8 - bytes) 0 → result ≡ 0 }
{
    if bytes < 8 { number >> (8 * bytes) } else { 0 }
}
