//! The arguments behind a command, as they were matched.

ghost use Rattle.std.specs.Prelude.{◌≡◌, ◌≤◌, IfSome};
ghost use Rattle.clap.specs.Words.{found_of, rows_of};
ghost use Rattle.sb_words.specs.Arguments.{is_flag_given as flag_given_by, is_history_given as history_given_by};
ghost use Rattle.sb_words.specs.Arguments.{number_between as number_between_by, number_given as number_given_by, order_given as order_given_by};
ghost use Rattle.sb_words.specs.Arguments.{seed_given as seed_given_by, workers_given as workers_given_by};

use clap::ArgMatches;
use sb_text::number;

/// The value of one to ten decimal digits, if it is from `least` to `most`.
fn number_between(word: &str, least: u32, most: u32) -> Option<u32>
    ensures value { result ≡ number_between_by least most word.now }
    ensures at_least { IfSome result (λ n. least ≤ n) }
    ensures at_most { IfSome result (λ n. n ≤ most) }
{
    let value = number(word.as_bytes(), 10, 10)?;
    if value < least as u64 || value > most as u64 {
        return None;
    }
    Some(value as u32)
}

/// The number of an option, or `default` where the option isn't given; None where the word that is given is no number
/// from `least` to `most`.
#[tactic(auto, using(crate::proofs::Matched::first_text))]
fn number_given(
    found: &ArgMatches<'_>,
    name: &str,
    least: u32,
    most: u32,
    default: u32,
) -> Option<u32>
    requires within { (least ≤ default) × (default ≤ most) }
    ensures value { result ≡ number_given_by name.now least most default (rows_of (found_of found.now)) }
    ensures at_least { IfSome result (λ n. least ≤ n) }
    ensures at_most { IfSome result (λ n. n ≤ most) }
{
    match found.get_str(name) {
        None => Some(default),
        Some(word) => number_between(word, least, most),
    }
}

/// Whether a flag is given: its value is then `true`.
#[tactic(auto, using(crate::proofs::Matched::first_text))]
fn is_flag_given(found: &ArgMatches<'_>, name: &str) -> bool
    ensures { result ≡ flag_given_by name.now (rows_of (found_of found.now)) }
{
    match found.get_str(name) {
        None => false,
        Some(value) => value == "true",
    }
}

/// `[--order N]`: 0 to 4,294,967,295, and 0 where it isn't given; None where N is no such number.
pub fn order_given(found: &ArgMatches<'_>) -> Option<u32>
    ensures { result ≡ order_given_by (rows_of (found_of found.now)) }
{
    number_given(found, "order", 0, u32::MAX, 0)
}

/// `[--workers N]`: 1 to 16, and 4 where it isn't given; None where N is no such number.
pub fn workers_given(found: &ArgMatches<'_>) -> Option<u32>
    ensures workers { result ≡ workers_given_by (rows_of (found_of found.now)) }
    ensures some { IfSome result (λ workers. 1 ≤ workers) }
    ensures few { IfSome result (λ workers. workers ≤ 16) }
{
    number_given(found, "workers", 1, 16, 4)
}

/// `N`: 0 to 4,294,967,295; None where it is no such number.
#[tactic(auto, using(crate::proofs::Matched::first_text))]
pub fn seed_given(found: &ArgMatches<'_>) -> Option<u32>
    ensures { result ≡ seed_given_by (rows_of (found_of found.now)) }
{
    let word = found.get_str("number")?;
    number_between(word, 0, u32::MAX)
}

/// `[--history]`
pub fn is_history_given(found: &ArgMatches<'_>) -> bool
    ensures { result ≡ history_given_by (rows_of (found_of found.now)) }
{
    is_flag_given(found, "history")
}
