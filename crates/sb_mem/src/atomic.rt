//! What an atomic makes of the old value of a word and its operand: after UMI, this project's profile.

ghost use Rattle.std.specs.Prelude.{◌≡◌, ◌≤◌, ◌<◌, ◌+◌, ◌*◌, ◌^◌, ◌%◌, length, take};
ghost use Rattle.sb_word.specs.declared.command.Op.TheVariants.{ReqAtomic};
ghost use Rattle.sb_packet.specs.Messages.{message_of};
ghost use Rattle.sb_packet.specs.Accesses.{access_at};
ghost use Rattle.sb_packet.specs.Memories.{combined, combined_bytes as bytes_combined, number_of, signed_le};

use sb_packet::{AtomicOp, Packet, padded};

/// The bytes that an atomic leaves of a word, at the front.
pub fn combined_bytes(p: &Packet, old: &[u8]) -> [u8; 8]
    requires op { p.now.cmd.op ≡ ReqAtomic }
    requires word { length old.now ≡ 2 ^ p.now.cmd.size }
    ensures front { take (2 ^ p.now.cmd.size) result
        ≡ bytes_combined (access_at (message_of p.now) 0) old.now }
    ensures whole { length result ≡ 8 }
{
    let operand = number(&p.body[..old.len()]);
    let atomic = AtomicOp::numbered(p.cmd.len);
    combined_word(atomic, p.cmd.size, number(old), operand).to_le_bytes()
}

/// Bytes as one number, the lowest first.
fn number(bytes: &[u8]) -> u64
    requires { length bytes.now ≤ 8 }
    ensures value { result ≡ number_of bytes.now }
    ensures below { result < 256 ^ length bytes.now }
{
    u64::from_le_bytes(padded(bytes))
}

/// What an atomic leaves of the old value and the operand, which are words of `2^size` bytes.
fn combined_word(atomic: AtomicOp, size: u8, old: u64, operand: u64) -> u64
    requires size { size ≤ 3 }
    requires old { old < 256 ^ 2 ^ size }
    requires operand { operand < 256 ^ 2 ^ size }
    ensures { result ≡ combined atomic (256 ^ 2 ^ size) old operand }
{
    match atomic {
        AtomicOp::Add => wrapped_sum(size, old, operand),
        AtomicOp::And => old & operand,
        AtomicOp::Or => old | operand,
        AtomicOp::Xor => old ^ operand,
        AtomicOp::Max if is_signed_at_most(size, old, operand) => operand,
        AtomicOp::Max => old,
        AtomicOp::Min if is_signed_at_most(size, old, operand) => old,
        AtomicOp::Min => operand,
        AtomicOp::MaxU => old.max(operand),
        AtomicOp::MinU => old.min(operand),
        AtomicOp::Swap => operand,
    }
}

/// The sum that a word of `2^size` bytes keeps.
fn wrapped_sum(size: u8, a: u64, b: u64) -> u64
    requires { size ≤ 3 }
    ensures { result ≡ (a + b) % 256 ^ 2 ^ size }
{
    a.wrapping_add(b) & greatest(size)
}

/// Tests whether one word is at most another in two's complement: with the sign bit turned over, the order is that
/// of numbers without sign.
fn is_signed_at_most(size: u8, a: u64, b: u64) -> bool
    requires size { size ≤ 3 }
    requires a { a < 256 ^ 2 ^ size }
    requires b { b < 256 ^ 2 ^ size }
    ensures { result ≡ signed_le (256 ^ 2 ^ size) a b }
{
    let sign = sign_bit(size);
    a ^ sign <= b ^ sign
}

/// The greatest number of `2^size` bytes.
fn greatest(size: u8) -> u64
    requires { size ≤ 3 }
    ensures { result + 1 ≡ 256 ^ 2 ^ size }
{
    u64::MAX >> (64 - (8_u32 << size))
}

/// The number of `2^size` bytes with the highest bit alone.
fn sign_bit(size: u8) -> u64
    requires { size ≤ 3 }
    ensures { result * 2 ≡ 256 ^ 2 ^ size }
{
    1 << ((8_u32 << size) - 1)
}
