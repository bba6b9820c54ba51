//! The first two lines of a report with its history.

ghost use Rattle.std.specs.Prelude.{◌≡◌, ◌≢◌, ℕ, [], ◌∷◌, None, Some, bytes_eq, IfSome};
ghost use Rattle.std.specs.Bool.{OnFalse, OnTrue};
ghost use Rattle.sb_text.specs.Reports.{first_line};
ghost use Rattle.sb_check.specs.Spelling.{AnnouncesEntries, count_line};

use crate::entry_line::fit_their_types;
use crate::line_piece::LinePiece;
use crate::line_words::LineWords;
use crate::unread::{Unread, are_same};
use sb_text::number;

/// Whether a line is the first of a report.
pub fn is_first_line(line: &[u8]) -> bool
    ensures { result ≡ bytes_eq line.now (first_line None) }
{
    are_same(line, b"sb 1\n")
}

/// The number of entries that a line can only announce, if it announces any.
fn count_in(line: &[u8]) -> Option<u32>
    ensures only { (n : ℕ) → AnnouncesEntries line.now n → result ≡ Some n }
{
    let mut words = LineWords { rest: line };
    words.front()?;
    let text = words.rest;
    if text.is_empty() {
        return None;
    }
    let n = number(&text[..text.len() - 1], 10, 10)?;
    if n > u64::from(u32::MAX) {
        return None;
    }
    Some(n as u32)
}

/// Whether a line announces so many entries.
fn has_count(line: &[u8], n: u32) -> bool
    ensures yes { OnTrue result (line.now ≡ count_line n) }
    ensures no { OnFalse result (line.now ≢ count_line n) }
{
    let mut text = Unread { rest: line };
    let pieces = [LinePiece::Text(b"history"), LinePiece::Number(u64::from(n))];
    match text.line(&pieces) {
        Ok(()) => text.rest.is_empty(),
        Err(_) => false,
    }
}

/// The number of entries that a line announces; None exactly where it announces none.
pub fn announced(line: &[u8]) -> Option<u32>
    ensures announced { IfSome result (AnnouncesEntries line.now) }
    ensures only { (n : ℕ) → AnnouncesEntries line.now n → result ≡ Some n }
{
    let n = count_in(line)?;
    if !has_count(line, n) {
        return None;
    }
    fit_their_types(n, line);
    Some(n)
}
