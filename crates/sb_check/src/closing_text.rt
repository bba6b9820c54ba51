//! What a report has behind its history, compared with what is left of one.

ghost use Rattle.std.specs.Prelude.{◌≡◌, ◌<◌, ◌≤◌, ◌^◌, ◌++◌, ℕ, List, [], ◌∷◌, codes, filter, length, IfSome, MatchOption, OnErr, OnOk};
ghost use Rattle.sb_packet.specs.Answers.{RunResults};
ghost use Rattle.sb_flow.specs.NetworkOf.{network_of};
ghost use Rattle.sb_text.specs.Lines.{is_line_end};
ghost use Rattle.sb_text.specs.Telling.{Tells};
ghost use Rattle.sb_text.specs.TextLines.{text_line};
ghost use Rattle.sb_check.specs.Comparing.{DifferBehind, IsCompared, closing_text};
ghost use Rattle.sb_check.specs.ReportLines.{IsFirstDifference};

use crate::device_lines::take_devices;
use crate::host_lines::take_hosts;
use crate::line_piece::LinePiece;
use crate::unread::{Differs, Unread};
use crate::whole_lines::{line_end_count, take_line};
use sb_flow::Bundle;
use sb_text::Results;

/// Takes off a report's last line.
fn take_end(text: &mut Unread<'_>) -> Result<(), Differs>
    ensures compared { IsCompared result text.old.rest.now text.new.rest.now (text_line (codes "end" ∷ [])) }
{
    take_line(text, &[LinePiece::Text(b"end")])
}

/// Takes off the lines of hosts, of devices, and the last one.
fn take_closing<R: Results>(
    text: &mut Unread<'_>,
    bundle: &Bundle,
    results: &R,
) -> Result<(), Differs>
    requires told { (told : RunResults) × Tells R.Results results.now (network_of bundle.now) told }
    ensures compared { (told : RunResults) → Tells R.Results results.now (network_of bundle.now) told
        → IsCompared result text.old.rest.now text.new.rest.now (closing_text (network_of bundle.now) told) }
{
    take_hosts(text, bundle, results)?;
    take_devices(text, bundle, results)?;
    take_end(text)
}

/// The same, with nothing behind them.
fn take_all<R: Results>(text: &mut Unread<'_>, bundle: &Bundle, results: &R) -> Result<(), Differs>
    requires told { (told : RunResults) × Tells R.Results results.now (network_of bundle.now) told }
    ensures same { (told : RunResults) → Tells R.Results results.now (network_of bundle.now) told
        → OnOk result (text.old.rest.now ≡ closing_text (network_of bundle.now) told) }
    ensures differ { (told : RunResults) → Tells R.Results results.now (network_of bundle.now) told
        → OnErr result (DifferBehind text.old.rest.now (closing_text (network_of bundle.now) told) text.new.rest.now) }
{
    take_closing(text, bundle, results)?;
    if !text.rest.is_empty() {
        return Err(Differs);
    }
    Ok(())
}

/// How many line feeds stand before the last so many bytes of a text.
fn line_ends_before(text: &[u8], left: usize) -> u32
    requires left { left ≤ length text.now }
    requires few { length text.now < 2 ^ 32 }
    ensures counted { (front after : List ℕ) → text.now ≡ front ++ after → length after ≡ left
        → result ≡ length (filter is_line_end front) }
    ensures few { result ≤ length text.now }
{
    line_end_count(&text[..text.len() - left]) as u32
}

/// The first line, counted from 0, in which what is left of a report behind its history differs from what the results of its
/// run give there; None where it is the same.
pub fn closing_difference<R: Results>(bundle: &Bundle, results: &R, rest: &[u8]) -> Option<u32>
    requires told { (told : RunResults) × Tells R.Results results.now (network_of bundle.now) told }
    requires few { length rest.now < 2 ^ 32 }
    ensures compared { (told : RunResults) → Tells R.Results results.now (network_of bundle.now) told
        → MatchOption result (rest.now ≡ closing_text (network_of bundle.now) told)
        (IsFirstDifference rest.now (closing_text (network_of bundle.now) told)) }
    ensures few { IfSome result (λ line. line ≤ length rest.now) }
{
    let mut text = Unread { rest };
    match take_all(&mut text, bundle, results) {
        Ok(()) => None,
        Err(Differs) => Some(line_ends_before(rest, text.rest.len())),
    }
}
