//! Lines, compared with those that are left of a report.

ghost use Rattle.std.specs.Prelude.{◌≡◌, All, filter, length, map};
ghost use Rattle.sb_text.specs.Lines.{is_line_end};
ghost use Rattle.sb_text.specs.TextLines.{text_line};
ghost use Rattle.sb_check.specs.Comparing.{IsCompared, IsUnended, piece_text};

use crate::line_piece::LinePiece;
use crate::unread::{Differs, Unread};

/// Takes off a line of words without a line feed. Where it isn't there, nothing is taken off.
pub fn take_line(text: &mut Unread<'_>, pieces: &[LinePiece<'_>]) -> Result<(), Differs>
    requires { All IsUnended (map piece_text pieces.now) }
    ensures compared { IsCompared result text.old.rest.now text.new.rest.now (text_line (map piece_text pieces.now)) }
{
    let mut front = Unread { rest: text.rest };
    front.line(pieces)?;
    text.rest = front.rest;
    Ok(())
}

/// How many line feeds a text has.
pub fn line_end_count(text: &[u8]) -> usize
    ensures { result ≡ length (filter is_line_end text.now) }
{
    text.iter().filter(|b| **b == b'\n').count()
}
