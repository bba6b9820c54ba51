//! Laws over the definitions: what may be said of one report.

ghost use Rattle.std.specs.Prelude.{◌≡◌, ◌<◌, ◌^◌, ℕ, List, length};
ghost use Rattle.sb_flow.specs.NetworkOf.{network_of};
ghost use Rattle.sb_check.specs.Histories.{SpellsJournal};
ghost use Rattle.sb_check.specs.Verdicts.{IsFault, IsLawfulReport};
ghost use Rattle.sb_check.specs.declared.verdict.Reason.{Reason};
ghost use Rattle.sb_packet.specs.declared.entry.Entry.{Entry};
ghost use Rattle.sb_flow.specs.declared.bundle.Bundle.{Bundle as AnyBundle};

use crate::checking::names_are_names;
use sb_flow::Bundle;
use sb_word::words_are_exact;

/// The entry lines of a report spell one journal at most.
pub fn reports_spell_one_journal()
    ensures { (bundle : AnyBundle) (report : List ℕ) (journal other : List Entry)
        → SpellsJournal (network_of bundle) report journal → SpellsJournal (network_of bundle) report other → journal ≡ other }
{
    words_are_exact();
}

/// A report goes wrong first for one reason, and in one line.
pub fn reports_have_one_fault()
    ensures { (bundle : AnyBundle) (report : List ℕ) (reason other : Reason) (k line : ℕ)
        → IsFault (network_of bundle) report reason k → IsFault (network_of bundle) report other line
        → (reason ≡ other) × (k ≡ line) }
{
    words_are_exact();
}

/// Where a report goes wrong in any way, it isn't that of a lawful run.
pub fn faulty_reports_are_no_lawful_ones(bundle: &Bundle)
    ensures { (report : List ℕ) (reason : Reason) (k : ℕ) → length report < 2 ^ 32
        → IsFault (network_of bundle.now) report reason k → IsLawfulReport (network_of bundle.now) report → ⊥ }
{
    words_are_exact();
    names_are_names(bundle);
}
