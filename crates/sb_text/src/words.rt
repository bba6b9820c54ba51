//! The words of a line.

ghost use Rattle.std.specs.Prelude.{◌≡◌, ◌<◌, ◌≤◌, true, false, [], ◌∷◌, All, length, slice_index, take, MatchOption};
ghost use Rattle.sb_text.specs.Lines.{IsTrimmed, is_blank as blank_test, words_in_line};
ghost use Rattle.sb_text.specs.Sentences.{is_comment as comment_test};

use memchr::memchr2;

/// What is left of a line, word by word. It begins with no blank.
#[derive(Clone, Copy, Debug)]
pub struct Words<'a> {
    pub rest: &'a [u8],
    pub ghost trimmed: { IsTrimmed rest.now },
}

#[inline(always)]
fn is_blank(byte: u8) -> bool
    ensures { result ≡ blank_test byte }
{
    byte == b' ' || byte == b'\t'
}

/// How many blanks and tabs a line begins with.
#[inline(always)]
fn blank_len(line: &[u8]) -> usize
    ensures within { result ≤ length line.now }
    ensures blank { All (λ byte. blank_test byte ≡ true) (take result line.now) }
    ensures end { result < length line.now → blank_test (slice_index line.now result) ≡ false }
{
    for (index, byte) in line.iter().enumerate() {
        if !is_blank(*byte) {
            return index;
        }
    }
    line.len()
}

/// A line without the blanks and tabs at its front.
#[inline(always)]
fn trimmed(line: &[u8]) -> &[u8]
    ensures words { words_in_line result.now ≡ words_in_line line.now }
    ensures front { IsTrimmed result.now }
{
    let (_, rest) = line.split_at(blank_len(line));
    rest
}

/// How long the word is with which a line begins.
#[inline(always)]
fn word_len(line: &[u8]) -> usize
    ensures within { result ≤ length line.now }
    ensures word { All (λ byte. blank_test byte ≡ false) (take result line.now) }
    ensures end { result < length line.now → blank_test (slice_index line.now result) ≡ true }
{
    for (index, byte) in line.iter().enumerate() {
        if is_blank(*byte) {
            return index;
        }
    }
    line.len()
}

/// The same, by a search that pays where the word is long. Its code is kept out of the way of short words.
#[inline(never)]
fn long_word_len(line: &[u8]) -> usize
    ensures within { result ≤ length line.now }
    ensures word { All (λ byte. blank_test byte ≡ false) (take result line.now) }
    ensures end { result < length line.now → blank_test (slice_index line.now result) ≡ true }
{
    memchr2(b' ', b'\t', line).unwrap_or(line.len())
}

impl<'a> Words<'a> {
    /// The words of a line.
    #[inline(always)]
    pub fn new(line: &'a [u8]) -> Words<'a>
        ensures { words_in_line result.rest.now ≡ words_in_line line.now }
    {
        Words {
            rest: trimmed(line),
        }
    }

    /// The first word begins with `#`.
    #[inline(always)]
    pub fn is_comment(&self) -> bool
        ensures { result ≡ comment_test (words_in_line self.now.rest.now) }
    {
        !self.rest.is_empty() && self.rest[0] == b'#'
    }

    /// Takes off the first word, which has that length.
    #[inline(always)]
    fn first_word(&mut self, len: usize) -> &'a [u8]
        requires some { 0 < length self.old.rest.now }
        requires within { len ≤ length self.old.rest.now }
        requires word { All (λ byte. blank_test byte ≡ false) (take len self.old.rest.now) }
        requires end { len < length self.old.rest.now → blank_test (slice_index self.old.rest.now len) ≡ true }
        ensures { words_in_line self.old.rest.now ≡ result.now ∷ words_in_line self.new.rest.now }
    {
        let (word, rest) = self.rest.split_at(len);
        *self = Words::new(rest);
        word
    }

    /// Takes off the next word.
    #[inline(always)]
    pub fn next_word(&mut self) -> Option<&'a [u8]>
        ensures { MatchOption result (words_in_line self.old.rest.now ≡ [])
            (λ word. words_in_line self.old.rest.now ≡ word.now ∷ words_in_line self.new.rest.now) }
    {
        if self.rest.is_empty() {
            return None;
        }
        Some(self.first_word(word_len(self.rest)))
    }

    /// Takes off the next word, which may be long.
    #[inline(always)]
    pub fn next_long_word(&mut self) -> Option<&'a [u8]>
        ensures { MatchOption result (words_in_line self.old.rest.now ≡ [])
            (λ word. words_in_line self.old.rest.now ≡ word.now ∷ words_in_line self.new.rest.now) }
    {
        if self.rest.is_empty() {
            return None;
        }
        Some(self.first_word(long_word_len(self.rest)))
    }
}
