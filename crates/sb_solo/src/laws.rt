//! Laws over the definitions of `solo`: what its journal, its packets and its outcomes have to do with its script.

ghost use Rattle.std.specs.Prelude.{◌≡◌, ◌≤◌, ℕ, List, length, sum_by, All};
ghost use Rattle.sb_packet.specs.Journals.{IsLawful};
ghost use Rattle.sb_packet.specs.Memories.{MemoryState};
ghost use Rattle.sb_packet.specs.Answers.{run_results};
ghost use Rattle.sb_packet.specs.Scripts.{IsTransaction};
ghost use Rattle.sb_packet.specs.declared.entry.Entry.{Entry};
ghost use Rattle.sb_packet.specs.declared.transaction.Txn.{Txn};
ghost use Rattle.sb_solo.specs.Solo.{solo_network, solo_packets, IsSoloJournal};
ghost use Rattle.sb_solo.specs.SoloRuns.{solo_outcomes_from, solo_results};

/// A solo journal is one legal history of its script.
pub fn solo_journals_are_lawful()
    ensures lawful { (script : List Txn) (journal : List Entry)
        → All IsTransaction script → IsSoloJournal script journal
        → IsLawful (solo_network script) journal }
{}

/// What a solo journal comes to is what its script comes to, transaction by transaction.
pub fn solo_results_are_the_journals()
    ensures results { (script : List Txn) (journal : List Entry)
        → All IsTransaction script → IsSoloJournal script journal
        → run_results (solo_network script) journal ≡ solo_results script }
{}

/// A script has no more packets than words.
pub fn solo_packets_are_few()
    ensures few { (script : List Txn)
        → All IsTransaction script → length (solo_packets script) ≤ sum_by (λ t. t.count) script }
{}

/// Each transaction has an outcome.
pub fn outcomes_are_many()
    ensures one_each { (script : List Txn) (i : ℕ) (m : MemoryState) (txns : List Txn)
        → length (solo_outcomes_from script i m txns) ≡ length txns }
{}
