//! The entries of a history, followed one by one.

ghost use Rattle.std.specs.Prelude.{◌≡◌, ◌≤◌, ◌<◌, ◌^◌, ◌++◌, [], ◌∷◌, ℕ, List, length, IfErr, IfOk, OnErr, OnOk};
ghost use Rattle.sb_packet.specs.Journals.{IsLawful};
ghost use Rattle.sb_packet.specs.declared.entry.Entry.{Entry as AnyEntry};
ghost use Rattle.sb_flow.specs.NetworkOf.{network_of};
ghost use Rattle.sb_check.specs.Gathering.{Gathers, IsFollowed};
ghost use Rattle.sb_check.specs.Histories.{SpellsJournal};
ghost use Rattle.sb_check.specs.Spelling.{IsEntryInRange};
ghost use Rattle.sb_check.specs.Verdicts.{IsFault};

use crate::fault::{Fault, fault_at};
use crate::gathered::Gathered;
use crate::progress::Progress;
use crate::verdict::Reason;
use sb_flow::Bundle;
use sb_packet::Entry;
use std::alloc::{AllocError, Global};

/// The entries of a history, followed one by one: how far the scripts are and what the entries come to, up to the first that
/// doesn't come rightly.
#[derive(Drop)]
pub struct Course {
    pub progress: Progress,
    pub gathered: Gathered,
    /// The place of the first entry that doesn't come rightly.
    pub wrong: Option<u32>,
}

impl Course {
    /// No entry yet. All memory is taken here.
    ///
    /// # Errors
    ///
    /// `AllocError` where there isn't enough memory.
    pub fn new(alloc: Global, bundle: &Bundle) -> Result<Course, AllocError>
        ensures start { IfOk result (IsFollowed (network_of bundle.now) []) }
    {
        let progress = Progress::new(alloc, bundle)?;
        let gathered = Gathered::new(alloc, bundle)?;
        Ok(Course {
            progress,
            gathered,
            wrong: None,
        })
    }

    /// Follows an entry: that at the next place of the journal.
    pub fn follow(&mut self, bundle: &Bundle, entry: &Entry, place: u32)
        requires next { (journal : List AnyEntry) × IsFollowed (network_of bundle.now) journal self.old
            × IsEntryInRange (network_of bundle.now) entry.now × (place ≡ length journal) }
        ensures followed { (journal : List AnyEntry) → IsFollowed (network_of bundle.now) journal self.old
            → IsEntryInRange (network_of bundle.now) entry.now → place ≡ length journal
            → IsFollowed (network_of bundle.now) (journal ++ entry.now ∷ []) self.new }
    {
        match self.wrong {
            Some(_) => {}
            None => {
                if self.progress.admits(bundle, entry) {
                    self.gathered.take(bundle, entry);
                } else {
                    self.wrong = Some(place);
                }
            }
        }
    }

    /// Whether a journal of so many entries, all of them followed, is lawful; if not, where it goes wrong.
    pub fn ended(&self, bundle: &Bundle, count: u32) -> Result<(), Fault>
        requires few { count ≤ 2 ^ 26 }
        requires followed { (journal : List AnyEntry) × IsFollowed (network_of bundle.now) journal self.now × (length journal ≡ count) }
        ensures lawful { (journal : List AnyEntry) → IsFollowed (network_of bundle.now) journal self.now → length journal ≡ count
            → OnOk result (IsLawful (network_of bundle.now) journal × Gathers (network_of bundle.now) journal self.now.gathered) }
        ensures fault { (report : List ℕ) (journal : List AnyEntry) → IsFollowed (network_of bundle.now) journal self.now
            → length journal ≡ count → SpellsJournal (network_of bundle.now) report journal
            → IfErr result (λ f. IsFault (network_of bundle.now) report f.reason f.line) }
        ensures unlawful { (journal : List AnyEntry) → IsFollowed (network_of bundle.now) journal self.now → length journal ≡ count
            → OnErr result (IsLawful (network_of bundle.now) journal → ⊥) }
    {
        match self.wrong {
            Some(place) => Err(fault_at(2 + place, Reason::Entry)),
            None => {
                if self.progress.is_whole(bundle) {
                    Ok(())
                } else {
                    Err(fault_at(1 + count, Reason::Short))
                }
            }
        }
    }
}
