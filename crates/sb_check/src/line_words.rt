//! The words of an entry's line, taken off from both of its ends.

ghost use Rattle.std.specs.Prelude.{◌≡◌, ◌≤◌, ◌++◌, ℕ, List, [], ◌∷◌, length, IsSomeAnd};
ghost use Rattle.sb_text.specs.Numerals.{digits_number};
ghost use Rattle.sb_check.specs.Spelling.{IsPlain};

use memchr::{memchr, memrchr};
use sb_text::number;

/// What is left of a line whose words are read. Nothing is promised of a line that isn't of its form.
#[derive(Clone, Copy, Debug)]
pub struct LineWords<'a> {
    pub rest: &'a [u8],
}

impl<'a> LineWords<'a> {
    /// Takes off the word before the first blank, and the blank.
    pub fn front(&mut self) -> Option<&'a [u8]>
        ensures only { (word behind : List ℕ) → IsPlain word → self.old.rest.now ≡ word ++ 32 ∷ behind
            → IsSomeAnd result (λ w. w.now ≡ word) × (self.new.rest.now ≡ behind) }
    {
        let end = memchr(b' ', self.rest)?;
        let (word, rest) = self.rest.split_at(end);
        let (_, rest) = rest.split_at(1);
        self.rest = rest;
        Some(word)
    }

    /// Takes off the word behind the last blank, and the blank.
    pub fn back(&mut self) -> Option<&'a [u8]>
        ensures only { (front word : List ℕ) → IsPlain word → self.old.rest.now ≡ front ++ 32 ∷ word
            → IsSomeAnd result (λ w. w.now ≡ word) × (self.new.rest.now ≡ front) }
    {
        let place = memrchr(b' ', self.rest)?;
        let (rest, word) = self.rest.split_at(place);
        let (_, word) = word.split_at(1);
        self.rest = rest;
        Some(word)
    }

    /// Takes off so many hexadecimal digits, at most 16, from the end, and the blank before them.
    pub fn back_number(&mut self, digits: usize) -> Option<u64>
        requires { digits ≤ 16 }
        ensures only { (front word : List ℕ) → length word ≡ digits → self.old.rest.now ≡ front ++ 32 ∷ word
            → (result ≡ digits_number 16 digits word) × (self.new.rest.now ≡ front) }
    {
        if self.rest.len() < digits + 1 {
            return None;
        }
        let (rest, word) = self.rest.split_at(self.rest.len() - (digits + 1));
        let (_, word) = word.split_at(1);
        self.rest = rest;
        number(word, 16, digits)
    }
}
