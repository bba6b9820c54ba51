//! The history of a report, line by line: its entries are read and followed.

ghost use Rattle.std.specs.Prelude.{◌≡◌, ◌≢◌, ◌≤◌, ◌<◌, ◌^◌, ℕ, List, [], ◌∷◌, length, slice_get, IfErr, IfOk, IfSome, MatchOption, OnOk};
ghost use Rattle.sb_flow.specs.NetworkOf.{network_of};
ghost use Rattle.sb_text.specs.Reports.{first_line};
ghost use Rattle.sb_check.specs.Histories.{AreEntriesOf, IsEntryNext, IsFormFault, IsHeaded};
ghost use Rattle.sb_check.specs.Gathering.{IsFollowed};
ghost use Rattle.sb_check.specs.ReportLines.{report_lines};
ghost use Rattle.sb_check.specs.Spelling.{AnnouncesEntries, count_line};
ghost use Rattle.sb_packet.specs.declared.entry.Entry.{Entry as AnyEntry};
ghost use Rattle.sb_packet.specs.Networks.{Network};

use crate::course::Course;
use crate::entry_line::read_entry;
use crate::heading::{announced, is_first_line};
use crate::lines::ReportLines;
use sb_flow::Bundle;
use sb_packet::Entry;

/// Reads the first line of a report. None says that it is missing, or another.
fn read_first(lines: &mut ReportLines<'_>) -> Option<()>
    ensures { MatchOption result ((line : List ℕ) → slice_get (report_lines lines.old.rest.now) 0 ≡ Some line → line ≢ first_line None)
        (λ done. report_lines lines.old.rest.now ≡ first_line None ∷ report_lines lines.new.rest.now) }
{
    let line = lines.next_line()?;
    if is_first_line(line) { Some(()) } else { None }
}

/// Reads the line that announces the entries. None says that it is missing, or announces none.
fn read_count(lines: &mut ReportLines<'_>) -> Option<u32>
    ensures { MatchOption result
        ((line : List ℕ) (n : ℕ) → slice_get (report_lines lines.old.rest.now) 0 ≡ Some line → AnnouncesEntries line n → ⊥)
        (λ count. (count < 2 ^ 32) × (report_lines lines.old.rest.now ≡ count_line count ∷ report_lines lines.new.rest.now)) }
{
    let line = lines.next_line()?;
    announced(line)
}

/// Reads the first two lines of a report: how many entries follow. An error is the line, counted from 0, that isn't there or
/// hasn't its form.
pub fn read_heading(lines: &mut ReportLines<'_>) -> Result<u32, u32>
    ensures headed { IfOk result (IsHeaded lines.old.rest.now lines.new.rest.now) }
    ensures form { (network : Network) → IfErr result (IsFormFault network lines.old.rest.now) }
    ensures few { IfErr result (λ line. line ≤ 1) }
{
    let Some(()) = read_first(lines) else {
        return Err(0);
    };
    match read_count(lines) {
        None => Err(1),
        Some(count) => Ok(count),
    }
}

/// Reads the next entry. None says that no line is left, or that the next one spells none.
fn next_entry(lines: &mut ReportLines<'_>, bundle: &Bundle) -> Option<Entry>
    ensures read { IfSome result (λ e. AreEntriesOf (network_of bundle.now)
        (report_lines lines.old.rest.now) (report_lines lines.new.rest.now) (e ∷ [])) }
    ensures none { result ≡ None → IsEntryNext (network_of bundle.now) (report_lines lines.old.rest.now) → ⊥ }
{
    let line = lines.next_line()?;
    read_entry(bundle, line)
}

/// Reads the announced entries, and follows them. An error is the number of the first one, counted from 0, that isn't there or
/// hasn't its form.
pub fn read_entries(
    lines: &mut ReportLines<'_>,
    bundle: &Bundle,
    course: &mut Course,
    count: u32,
) -> Result<(), u32>
    requires start { IsFollowed (network_of bundle.now) [] course.old }
    ensures read { OnOk result ((journal : List AnyEntry) × (length journal ≡ count)
        × AreEntriesOf (network_of bundle.now) (report_lines lines.old.rest.now) (report_lines lines.new.rest.now) journal
        × IsFollowed (network_of bundle.now) journal course.new) }
    ensures form { IfErr result (λ place. (journal : List AnyEntry) × (left : List (List ℕ)) × (place < count) × (length journal ≡ place)
        × AreEntriesOf (network_of bundle.now) (report_lines lines.old.rest.now) left journal
        × (IsEntryNext (network_of bundle.now) left → ⊥)) }
{
    for index in 0..count {
        let Some(entry) = next_entry(lines, bundle) else {
            return Err(index);
        };
        course.follow(bundle, &entry, index);
    }
    Ok(())
}
