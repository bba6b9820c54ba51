//! The bytes of a body.

ghost use Rattle.std.specs.Prelude.{◌≡◌, ◌⊎◌, ◌*◌, length, IsErr, IfOk, IfErr};
ghost use Rattle.std.specs.Bool.{OnTrue, OnFalse};
ghost use Rattle.hex.specs.Hex.{decode_of, decode_pairs};
ghost use Rattle.sb_text.specs.Sentences.{decoded as decoded_by};
ghost use Rattle.sb_text.specs.declared.line_fault.LineFault.TheVariants as faults;

use crate::digit::digit;
use crate::line_fault::LineFault;
use std::alloc::Global;

/// Writes the bytes that digits stand for, two for each; false where one isn't a digit.
fn decode_into(digits: &[u8], bytes: &mut [u8]) -> bool
    requires { length digits.now ≡ 2 * length bytes.old }
    ensures value { OnTrue result (decode_pairs 0 digits.now ≡ Ok bytes.new) }
    ensures other { OnFalse result (IsErr (decode_pairs 0 digits.now)) }
{
    for index in 0..bytes.len() {
        let high = digit(digits[2 * index]);
        let low = digit(digits[2 * index + 1]);
        if high > 15 || low > 15 {
            return false;
        }
        bytes[index] = high * 16 + low;
    }
    true
}

/// The bytes that digits stand for, two for each.
///
/// `LineFault::Data` says that the digits are odd in number or one isn't a digit; `LineFault::Memory` that memory was
/// missing.
#[inline(never)]
pub fn decoded(alloc: Global, digits: &[u8]) -> Result<Vec<u8>, LineFault>
    ensures ok { IfOk result (λ bytes. decoded_by (decode_of digits.now) ≡ Ok bytes.items) }
    ensures err { IfErr result (λ fault. (fault ≡ faults.Memory) ⊎ (decoded_by (decode_of digits.now) ≡ Err fault)) }
{
    if digits.len() % 2 != 0 {
        return Err(LineFault::Data);
    }
    let mut bytes = vec![in alloc; 0u8; digits.len() / 2]?;
    if decode_into(digits, bytes.as_mut_slice()) {
        Ok(bytes)
    } else {
        Err(LineFault::Data)
    }
}
