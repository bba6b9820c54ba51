//! The lines of a report.

ghost use Rattle.std.specs.Prelude.{◌≡◌, ◌<◌, [], ◌∷◌, length, IfSome, MatchOption};
ghost use Rattle.sb_check.specs.ReportLines.{report_lines};

use memchr::memchr;

/// What is left of a report, line by line.
#[derive(Clone, Copy, Debug)]
pub struct ReportLines<'a> {
    pub rest: &'a [u8],
}

impl<'a> ReportLines<'a> {
    /// Takes off the next line with its line feed, which a last line may not have. None says that nothing is left.
    pub fn next_line(&mut self) -> Option<&'a [u8]>
        ensures line { MatchOption result (report_lines self.old.rest.now ≡ [])
            (λ line. report_lines self.old.rest.now ≡ line.now ∷ report_lines self.new.rest.now) }
        ensures shorter { IfSome result (λ line. length self.new.rest.now < length self.old.rest.now) }
    {
        if self.rest.is_empty() {
            return None;
        }
        match memchr(b'\n', self.rest) {
            None => {
                let (line, rest) = self.rest.split_at(self.rest.len());
                self.rest = rest;
                Some(line)
            }
            Some(end) => {
                let (line, rest) = self.rest.split_at(end + 1);
                self.rest = rest;
                Some(line)
            }
        }
    }
}
