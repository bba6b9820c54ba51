//! The names of hosts, routers, devices and links.

ghost use Rattle.std.specs.Prelude.{◌≡◌, IsTrue, SomeIff};
ghost use Rattle.std.specs.List.{list_all};
ghost use Rattle.sb_packet.specs.Names.{begins_with_letter as letter_first, is_letter as letter_test, is_name as name_test, is_name_byte as name_byte_test};

use crate::padding::padded;
use std::marker::Model;

/// The most bytes that a name has.
const MOST_BYTES: usize = 16;

/// A name of 1 to 16 of `a` to `z`, `0` to `9` and `_`, a letter first. Contracts see it as the list of its bytes.
#[derive(Clone, Copy, Debug, PartialEq, Eq)]
pub struct Name {
    text: [u8; MOST_BYTES],
    len: u8,
}

impl Model for Name {
    ghost use Rattle.std.specs.Prelude.{◌≡◌, ℕ, List, ◌-◌, ◌≤◌, ◌++◌, drop, length, replicate, take, IsTrue};
    ghost use Rattle.sb_packet.specs.Names.{is_name};
    ghost use Rattle.sb_packet.specs.Networks.{padded_back};

    ghost Value = { List ℕ };

    ghost view = { λ n. take n.len n.text };

    ghost invariant = { λ n. (n.len ≤ 16) × (length n.text ≡ 16) × (drop n.len n.text ≡ replicate (16 - n.len) 0) × IsTrue (is_name (take n.len n.text)) };

    ghost inverse = { λ t. record { text = t ++ replicate (16 - length t) 0; len = length t } };

    ghost inverse_ok = { λ n h. padded_back n h.0 h.1 h.2 };
}

impl Name {
    /// Reads a name; None exactly where the text isn't one. It takes no memory.
    pub fn new(text: &[u8]) -> Option<Name>
        ensures { SomeIff result (IsTrue (name_test text.now)) text.now }
    {
        if !is_name(text) {
            return None;
        }
        Some(Name {
            text: padded(text),
            len: text.len() as u8,
        })
    }

    /// The name's bytes.
    pub fn as_slice(&self) -> &[u8]
        ensures text { result.now ≡ self.now }
        ensures named { IsTrue (name_test self.now) }
    {
        &self.text[..usize::from(self.len)]
    }
}

fn is_letter(byte: u8) -> bool
    ensures { result ≡ letter_test byte }
{
    byte.is_ascii_lowercase()
}

fn is_name_byte(byte: u8) -> bool
    ensures { result ≡ name_byte_test byte }
{
    is_letter(byte) || byte.is_ascii_digit() || byte == b'_'
}

fn begins_with_letter(text: &[u8]) -> bool
    ensures { result ≡ letter_first text.now }
{
    match text {
        [] => false,
        [first, ..] => is_letter(*first),
    }
}

fn has_name_bytes(text: &[u8]) -> bool
    ensures { result ≡ list_all (λ b. name_byte_test b) text.now }
{
    text.iter().all(|b| is_name_byte(*b))
}

fn is_name(text: &[u8]) -> bool
    ensures { result ≡ name_test text.now }
{
    text.len() <= 16 && begins_with_letter(text) && has_name_bytes(text)
}
