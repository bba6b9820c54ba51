//! The lines of a text.

ghost use Rattle.std.specs.Prelude.{◌≡◌, ◌<◌, ◌^◌, [], ◌∷◌, length, MatchOption, IfSome};
ghost use Rattle.sb_text.specs.Lines.{lines_of};

use memchr::memchr;

/// What is left of a text, line by line.
#[derive(Clone, Copy, Debug)]
pub struct Lines<'a> {
    pub rest: &'a [u8],
}

impl<'a> Lines<'a> {
    /// The lines of a text.
    pub fn new(text: &'a [u8]) -> Lines<'a>
        ensures { result.rest.now ≡ text.now }
    {
        Lines { rest: text }
    }

    /// Takes off the next line, without its line feed.
    pub fn next_line(&mut self) -> Option<&'a [u8]>
        ensures line { MatchOption result (self.old.rest.now ≡ [])
            (λ line. lines_of self.old.rest.now ≡ line.now ∷ lines_of self.new.rest.now) }
        ensures shorter { IfSome result (λ line. length self.new.rest.now < length self.old.rest.now) }
    {
        if self.rest.is_empty() {
            return None;
        }
        match memchr(b'\n', self.rest) {
            None => {
                let (line, rest) = self.rest.split_at(self.rest.len());
                self.rest = rest;
                Some(line)
            }
            Some(end) => {
                let (line, rest) = self.rest.split_at(end);
                let (_, rest) = rest.split_at(1);
                self.rest = rest;
                Some(line)
            }
        }
    }
}

/// How many lines a text has.
pub fn line_count(text: &[u8]) -> u32
    requires { length text.now < 2 ^ 32 }
    ensures { result ≡ length (lines_of text.now) }
{
    let mut lines = Lines::new(text);
    let mut count = 0;
    while let Some(_) = lines.next_line() {
        count += 1;
    }
    count
}
