//! Is a report that of a lawful run?

ghost use Rattle.std.specs.Prelude.{◌≡◌, ◌≤◌, ◌<◌, ◌+◌, ◌^◌, ◌⊎◌, ℕ, List, [], All, length, true, IfErr, IfOk, OnOk};
ghost use Rattle.sb_packet.specs.Journals.{IsLawful};
ghost use Rattle.sb_packet.specs.Names.{is_name};
ghost use Rattle.sb_packet.specs.declared.entry.Entry.{Entry as AnyEntry};
ghost use Rattle.sb_flow.specs.NetworkOf.{network_of};
ghost use Rattle.sb_check.specs.Histories.{IsHistoryRead};
ghost use Rattle.sb_check.specs.Verdicts.{IsFault, IsFaulty, IsLawfulReport};
ghost use Rattle.sb_check.specs.Gathering.{Gathers, IsFollowed};
ghost use Rattle.sb_check.specs.declared.verdict.Reason.{Reason as AnyReason};
ghost use Rattle.sb_check.specs.declared.verdict.Verdict.TheVariants as verdicts;

use crate::closing_text::closing_difference;
use crate::course::Course;
use crate::fault::{Fault, fault_at};
use crate::gathered::Gathered;
use crate::history::{read_entries, read_heading};
use crate::lines::ReportLines;
use crate::verdict::{Reason, Verdict};
use sb_flow::Bundle;
use std::alloc::{AllocError, Global};

/// What is known of the names of a bundle's devices. It does nothing.
pub fn names_are_names(bundle: &Bundle)
    ensures { All (λ d. is_name d.name ≡ true) (network_of bundle.now).devices }
{
    for device in &bundle.devices {
        let _name = device.name.as_slice();
    }
}

/// Reads the history of a report and follows its entries: how many there are.
fn follow_history(
    lines: &mut ReportLines<'_>,
    bundle: &Bundle,
    course: &mut Course,
) -> Result<u32, Fault>
    requires short { length lines.old.rest.now ≤ 2 ^ 26 }
    requires start { IsFollowed (network_of bundle.now) [] course.old }
    ensures read { IfOk result (λ count. (journal : List AnyEntry) × (length journal ≡ count) × (count ≤ 2 ^ 26)
        × IsHistoryRead (network_of bundle.now) lines.old.rest.now lines.new.rest.now journal
        × IsFollowed (network_of bundle.now) journal course.new) }
    ensures form { IfErr result (IsFaulty (network_of bundle.now) lines.old.rest.now) }
{
    names_are_names(bundle);
    let count = match read_heading(lines) {
        Ok(count) => count,
        Err(line) => return Err(fault_at(line, Reason::Form)),
    };
    match read_entries(lines, bundle, course, count) {
        Ok(()) => Ok(count),
        Err(place) => Err(fault_at(2 + place, Reason::Form)),
    }
}

/// Compares what is left of a report behind the history of a lawful journal with what that comes to.
fn compare_closing(
    bundle: &Bundle,
    gathered: &Gathered,
    rest: &[u8],
    count: u32,
) -> Result<(), Fault>
    requires short { (count ≤ 2 ^ 26) × (length rest.now ≤ 2 ^ 26) }
    requires lawful { (journal : List AnyEntry) × IsLawful (network_of bundle.now) journal
        × Gathers (network_of bundle.now) journal gathered.now }
    ensures lawful { (report : List ℕ) (journal : List AnyEntry) → IsHistoryRead (network_of bundle.now) report rest.now journal
        → IsLawful (network_of bundle.now) journal → Gathers (network_of bundle.now) journal gathered.now
        → OnOk result (IsLawfulReport (network_of bundle.now) report) }
    ensures text { (report : List ℕ) (journal : List AnyEntry) → IsHistoryRead (network_of bundle.now) report rest.now journal
        → IsLawful (network_of bundle.now) journal → Gathers (network_of bundle.now) journal gathered.now
        → length journal ≡ count → length report ≤ 2 ^ 26 → IfErr result (IsFaulty (network_of bundle.now) report) }
{
    names_are_names(bundle);
    match closing_difference(bundle, gathered, rest) {
        None => Ok(()),
        Some(line) => Err(fault_at(2 + count + line, Reason::Text)),
    }
}

/// Reads a report and follows the course of its entries. An error is where it goes wrong first.
fn judge(bundle: &Bundle, course: &mut Course, report: &[u8]) -> Result<(), Fault>
    requires short { length report.now ≤ 2 ^ 26 }
    requires start { IsFollowed (network_of bundle.now) [] course.old }
    ensures lawful { OnOk result (IsLawfulReport (network_of bundle.now) report.now) }
    ensures faulty { IfErr result (IsFaulty (network_of bundle.now) report.now) }
{
    names_are_names(bundle);
    let mut lines = ReportLines { rest: report };
    let count = follow_history(&mut lines, bundle, course)?;
    match course.ended(bundle, count) {
        Ok(()) => compare_closing(bundle, &course.gathered, lines.rest, count),
        Err(fault) => Err(fault),
    }
}

/// Whether a report, with its history, is that of a lawful run of a bundle; if not, where it goes wrong first.
///
/// Lines are counted from 1. The report may have 2^26 bytes at most. It answers `Memory` where memory is missing; of the
/// report that says nothing.
pub fn check(alloc: Global, bundle: &Bundle, report: &[u8]) -> Verdict
    requires short { length report.now ≤ 2 ^ 26 }
    ensures yes { result ≡ verdicts.Yes → IsLawfulReport (network_of bundle.now) report.now }
    ensures only { IsLawfulReport (network_of bundle.now) report.now → (result ≡ verdicts.Yes) ⊎ (result ≡ verdicts.Memory) }
    ensures fault { (line : ℕ) (reason : AnyReason) → result ≡ verdicts.No line reason
        → (k : ℕ) × (line ≡ k + 1) × IsFault (network_of bundle.now) report.now reason k }
{
    let mut course = match Course::new(alloc, bundle) {
        Ok(course) => course,
        Err(AllocError) => return Verdict::Memory,
    };
    match judge(bundle, &mut course, report) {
        Ok(()) => Verdict::Yes,
        Err(fault) => Verdict::No {
            line: fault.line + 1,
            reason: fault.reason,
        },
    }
}
