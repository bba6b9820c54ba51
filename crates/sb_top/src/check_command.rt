//! The command `check`: a report is judged by its bundle.

ghost use Rattle.std.specs.Prelude.{◌≡◌, ◌≢◌, ◌≤◌, ◌+◌, ◌^◌, ◌⊎◌, ℕ, [], ◌∷◌, codes, length};
ghost use Rattle.sb_io.specs.Counts.{FaultsIncreased};
ghost use Rattle.sb_io.specs.Written.{Gains, GainsPart};
ghost use Rattle.sb_text.specs.TextLines.{word_text};
ghost use Rattle.sb_check.specs.declared.verdict.Verdict.TheVariants as verdicts;
ghost use Rattle.sb_check.specs.declared.verdict.Reason.{Reason as AnyReason};
ghost use Rattle.sb_top.specs.Judgements.{ApprovedReport, RefusedReport, RejectedReport, reason_text, rejection_text};
ghost use Rattle.sb_top.specs.Refusals.{refusal_text};
ghost use Rattle.sb_top.specs.TopCall.{Wrote, WrotePart};

use crate::bundle_command::refuse;
use crate::evidence::split_report;
use crate::status::{DONE, OUT_OF_MEMORY, REFUSED, REJECTED, WRITE_FAILED, status_of};
use sb_check::{Reason, Verdict, check};
use sb_flow::Bundle;
use sb_io::Sink;
use sb_text::{LineWord, print_line};
use sb_topology::load;
use std::alloc::Global;

/// The word for a reason.
fn reason_word(reason: Reason) -> LineWord<'static>
    ensures { word_text result ≡ reason_text reason }
{
    LineWord::Text(match reason {
        Reason::Form => b"form",
        Reason::Entry => b"entry",
        Reason::Short => b"short",
        Reason::Text => b"text",
    })
}

/// Says what is wrong with a report: the number of the line in which it goes wrong first, and why. It gives the status.
fn reject<K: Sink>(sink: &mut K, line: u32, reason: Reason) -> u8
    ensures rejected { result ≡ REJECTED → Gains (K.held sink.old) (K.held sink.new) (rejection_text line reason) }
    ensures part { result ≡ WRITE_FAILED → GainsPart (K.held sink.old) (K.held sink.new) (rejection_text line reason) }
    ensures cause { result ≡ WRITE_FAILED → FaultsIncreased (K.faults sink.old) (K.faults sink.new) }
    ensures clean { result ≢ WRITE_FAILED → K.faults sink.new ≡ K.faults sink.old }
    ensures others { (result ≡ REJECTED) ⊎ (result ≡ WRITE_FAILED) }
{
    let words = [
        LineWord::Text(b"no"),
        LineWord::Number(u64::from(line)),
        reason_word(reason),
    ];
    status_of(print_line(sink, &words), REJECTED)
}

/// Says what a verdict is, unless memory was missing. It gives the status.
fn tell<K: Sink>(sink: &mut K, verdict: Verdict) -> u8
    ensures done { result ≡ DONE → (verdict ≡ verdicts.Yes) × Gains (K.held sink.old) (K.held sink.new) (codes "yes\n") }
    ensures rejected { result ≡ REJECTED → (line : ℕ) × (reason : AnyReason) × (verdict ≡ verdicts.No line reason)
        × Gains (K.held sink.old) (K.held sink.new) (rejection_text line reason) }
    ensures part { result ≡ WRITE_FAILED
        → ((verdict ≡ verdicts.Yes) × GainsPart (K.held sink.old) (K.held sink.new) (codes "yes\n"))
        ⊎ ((line : ℕ) × (reason : AnyReason) × (verdict ≡ verdicts.No line reason)
        × GainsPart (K.held sink.old) (K.held sink.new) (rejection_text line reason)) }
    ensures silent { result ≡ OUT_OF_MEMORY → K.held sink.new ≡ K.held sink.old }
    ensures cause { result ≡ WRITE_FAILED → FaultsIncreased (K.faults sink.old) (K.faults sink.new) }
    ensures clean { result ≢ WRITE_FAILED → K.faults sink.new ≡ K.faults sink.old }
    ensures others { (result ≡ DONE) ⊎ (result ≡ REJECTED) ⊎ (result ≡ WRITE_FAILED) ⊎ (result ≡ OUT_OF_MEMORY) }
{
    match verdict {
        Verdict::Yes => status_of(print_line(sink, &[LineWord::Text(b"yes")]), DONE),
        Verdict::No { line, reason } => reject(sink, line, reason),
        Verdict::Memory => OUT_OF_MEMORY,
    }
}

/// Says that an input has no report. It gives the status.
fn refuse_reportless<K: Sink>(sink: &mut K) -> u8
    ensures refused { result ≡ REFUSED → Gains (K.held sink.old) (K.held sink.new) (refusal_text (codes "noreport" ∷ [])) }
    ensures part { result ≡ WRITE_FAILED → GainsPart (K.held sink.old) (K.held sink.new) (refusal_text (codes "noreport" ∷ [])) }
    ensures cause { result ≡ WRITE_FAILED → FaultsIncreased (K.faults sink.old) (K.faults sink.new) }
    ensures clean { result ≢ WRITE_FAILED → K.faults sink.new ≡ K.faults sink.old }
    ensures others { (result ≡ REFUSED) ⊎ (result ≡ WRITE_FAILED) }
{
    let words = [LineWord::Text(b"refused"), LineWord::Text(b"noreport")];
    status_of(print_line(sink, &words), REFUSED)
}

/// Judges the report of an input by the bundle before it, and says what came of it; or why the input is refused. It gives
/// the status.
pub fn judge<K: Sink>(alloc: Global, input: &[u8], sink: &mut K) -> u8
    requires short { length input.now ≤ 2 ^ 26 }
    ensures done { result ≡ DONE → Wrote (ApprovedReport input.now) (K.held sink.old) (K.held sink.new) }
    ensures rejected { result ≡ REJECTED → Wrote (RejectedReport input.now) (K.held sink.old) (K.held sink.new) }
    ensures refused { result ≡ REFUSED → Wrote (RefusedReport input.now) (K.held sink.old) (K.held sink.new) }
    ensures part { result ≡ WRITE_FAILED → WrotePart (λ text. ApprovedReport input.now text
        ⊎ (RefusedReport input.now text ⊎ RejectedReport input.now text)) (K.held sink.old) (K.held sink.new) }
    ensures silent { result ≡ OUT_OF_MEMORY → K.held sink.new ≡ K.held sink.old }
    ensures cause { result ≡ WRITE_FAILED → FaultsIncreased (K.faults sink.old) (K.faults sink.new) }
    ensures clean { result ≢ WRITE_FAILED → K.faults sink.new ≡ K.faults sink.old }
    ensures others { (result ≡ DONE) ⊎ (result ≡ REFUSED) ⊎ (result ≡ REJECTED) ⊎ (result ≡ WRITE_FAILED) ⊎ (result ≡ OUT_OF_MEMORY) }
{
    let Some(evidence) = split_report(input) else {
        return refuse_reportless(sink);
    };
    match load(alloc, evidence.bundle) {
        Ok(bundle) => tell(sink, check(alloc, &bundle, evidence.report)),
        Err(fault) => refuse(sink, &fault),
    }
}
