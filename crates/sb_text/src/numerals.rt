//! The numbers of a script.

ghost use Rattle.std.specs.Prelude.{◌≡◌, ◌≤◌, ◌^◌, ◌&&◌, nat_lt, Some, None, if◌then◌else◌};
ghost use Rattle.std.specs.List.{list_all};
ghost use Rattle.sb_text.specs.Numerals.{digits_value, is_digit_of, is_hexadecimal as hexadecimal_test, digits_number, numeral_of};

use crate::digit::digit;

/// What digits are worth; None where one isn't of the base, or where they are worth 2^64 or more.
#[inline(always)]
fn value(digits: &[u8], base: u8) -> Option<u64>
    requires { (2 ≤ base) × (base ≤ 16) }
    ensures { result
        ≡ (if list_all (is_digit_of base) digits.now && nat_lt (digits_value base digits.now) (2 ^ 64)
        then Some (digits_value base digits.now) else None) }
{
    let mut value: u64 = 0;
    for byte in digits {
        let digit = digit(*byte);
        if digit >= base {
            return None;
        }
        value = value.checked_mul(base as u64)?.checked_add(digit as u64)?;
    }
    Some(value)
}

/// The value of 1 to `most` digits of a base from 2 to 16; None where it is no such number, or 2^64 or more.
#[inline(always)]
pub fn number(digits: &[u8], base: u8, most: usize) -> Option<u64>
    requires { (2 ≤ base) × (base ≤ 16) }
    ensures { result ≡ digits_number base most digits.now }
{
    if digits.is_empty() || digits.len() > most {
        return None;
    }
    value(digits, base)
}

fn is_hexadecimal(word: &[u8]) -> bool
    ensures { result ≡ hexadecimal_test word.now }
{
    word.len() >= 2 && word[0] == b'0' && word[1] == b'x'
}

/// The value of a word, decimal or with `0x` hexadecimal; None where it is no number, or 2^64 or more.
#[inline(never)]
pub fn numeral(word: &[u8]) -> Option<u64>
    ensures { result ≡ numeral_of word.now }
{
    if is_hexadecimal(word) {
        number(&word[2..], 16, 16)
    } else {
        number(word, 10, 20)
    }
}
