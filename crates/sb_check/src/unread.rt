//! What is left of a text that is compared with another, piece by piece.
#![tactic(auto, using(crate::proofs::MatchLemmas::matched_then, crate::proofs::MatchLemmas::differs_first, crate::proofs::MatchLemmas::differs_then, crate::proofs::MatchLemmas::differs_front, crate::proofs::MatchLemmas::differs_short))]

ghost use Rattle.std.specs.Prelude.{◌≡◌, ◌≢◌, ◌*◌, ◌<◌, ◌++◌, [], ◌∷◌, bytes_eq, decimal, flat_map, length, map, slice_index};
ghost use Rattle.std.specs.Bool.{OnFalse, OnTrue};
ghost use Rattle.hex.specs.Hex.{encode_lower, lower_digits};
ghost use Rattle.sb_text.specs.TextLines.{body_text, text_line};
ghost use Rattle.sb_check.specs.Comparing.{HasDigits, IsMatched, piece_text};

use crate::line_piece::LinePiece;
use itoa::Buffer;

/// The text goes on in another way.
#[derive(Clone, Copy, Debug, PartialEq, Eq)]
pub struct Differs;

/// What is left of a text.
#[derive(Clone, Copy, Debug)]
pub struct Unread<'a> {
    pub rest: &'a [u8],
}

/// The lower-case digit of a number below 16.
#[inline(always)]
pub fn lower_digit(n: u8) -> u8
    requires { n < 16 }
    ensures { result ≡ slice_index lower_digits n }
{
    b"0123456789abcdef"[n as usize]
}

/// Whether two digits are those of the byte at a place.
fn has_digits(digits: &[u8], bytes: &[u8], index: usize) -> bool
    requires long { length digits.now ≡ 2 * length bytes.now }
    requires there { index < length bytes.now }
    ensures yes { OnTrue result (HasDigits digits.now bytes.now index) }
    ensures no { OnFalse result (HasDigits digits.now bytes.now index → ⊥) }
{
    let byte = bytes[index];
    if digits[2 * index] != lower_digit(byte / 16) {
        return false;
    }
    digits[2 * index + 1] == lower_digit(byte % 16)
}

/// Whether digits are those of bytes, two for each.
fn are_digits_of(digits: &[u8], bytes: &[u8]) -> bool
    requires { length digits.now ≡ 2 * length bytes.now }
    ensures yes { OnTrue result (digits.now ≡ encode_lower bytes.now) }
    ensures no { OnFalse result (digits.now ≢ encode_lower bytes.now) }
{
    for index in 0..bytes.len() {
        if !has_digits(digits, bytes, index) {
            return false;
        }
    }
    true
}

/// Whether two texts are the same.
pub fn are_same(a: &[u8], b: &[u8]) -> bool
    ensures { result ≡ bytes_eq a.now b.now }
{
    a == b
}

impl<'a> Unread<'a> {
    /// Takes off a text.
    pub fn text(&mut self, text: &[u8]) -> Result<(), Differs>
        ensures matched { IsMatched result self.old.rest.now self.new.rest.now text.now }
    {
        if self.rest.len() < text.len() {
            return Err(Differs);
        }
        let (front, rest) = self.rest.split_at(text.len());
        if !are_same(front, text) {
            return Err(Differs);
        }
        self.rest = rest;
        Ok(())
    }

    /// Takes off a number in decimal digits.
    fn number(&mut self, n: u64) -> Result<(), Differs>
        ensures matched { IsMatched result self.old.rest.now self.new.rest.now (decimal n) }
    {
        let mut digits = Buffer::new();
        self.text(digits.format(n).as_bytes())
    }

    /// Takes off bytes in hexadecimal digits.
    fn digits(&mut self, bytes: &[u8]) -> Result<(), Differs>
        ensures matched { IsMatched result self.old.rest.now self.new.rest.now (encode_lower bytes.now) }
    {
        if self.rest.len() / 2 < bytes.len() {
            return Err(Differs);
        }
        let (front, rest) = self.rest.split_at(2 * bytes.len());
        if !are_digits_of(front, bytes) {
            return Err(Differs);
        }
        self.rest = rest;
        Ok(())
    }

    /// Takes off a body, or the dash in its place.
    fn body(&mut self, bytes: &[u8]) -> Result<(), Differs>
        ensures matched { IsMatched result self.old.rest.now self.new.rest.now (body_text bytes.now) }
    {
        match bytes {
            [] => self.text(b"-"),
            _ => self.digits(bytes),
        }
    }

    /// Takes off a word of a line.
    fn piece(&mut self, piece: LinePiece<'_>) -> Result<(), Differs>
        ensures matched { IsMatched result self.old.rest.now self.new.rest.now (piece_text piece.entry) }
    {
        match piece {
            LinePiece::Text(text) => self.text(text),
            LinePiece::Number(n) => self.number(n),
            LinePiece::Digits(bytes) => self.digits(bytes),
            LinePiece::Body(bytes) => self.body(bytes),
        }
    }

    /// Takes off a blank and a word.
    fn next_piece(&mut self, piece: LinePiece<'_>) -> Result<(), Differs>
        ensures matched { IsMatched result self.old.rest.now self.new.rest.now (32 ∷ piece_text piece.entry) }
    {
        self.text(b" ")?;
        self.piece(piece)
    }

    /// Takes off words, a blank before each.
    fn pieces(&mut self, pieces: &[LinePiece<'_>]) -> Result<(), Differs>
        ensures matched { IsMatched result self.old.rest.now self.new.rest.now (flat_map (λ w. 32 ∷ piece_text w) pieces.now) }
    {
        for index in 0..pieces.len() {
            self.next_piece(pieces[index])?;
        }
        Ok(())
    }

    /// Takes off the rest of a line.
    fn rest_of_line(&mut self, pieces: &[LinePiece<'_>]) -> Result<(), Differs>
        ensures matched { IsMatched result self.old.rest.now self.new.rest.now (flat_map (λ w. 32 ∷ piece_text w) pieces.now ++ 10 ∷ []) }
    {
        self.pieces(pieces)?;
        self.text(b"\n")
    }

    /// Takes off a line: the words with a blank between them, and a line feed.
    pub fn line(&mut self, pieces: &[LinePiece<'_>]) -> Result<(), Differs>
        ensures matched { IsMatched result self.old.rest.now self.new.rest.now (text_line (map piece_text pieces.now)) }
    {
        match pieces {
            [] => self.text(b"\n"),
            [first, rest @ ..] => {
                self.piece(*first)?;
                self.rest_of_line(rest)
            }
        }
    }
}
