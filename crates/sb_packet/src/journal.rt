//! The journal of a run.

ghost use Rattle.std.specs.Prelude.{◌≡◌, ◌≤◌, ◌<◌, [], OnOk, OnErr};
ghost use Rattle.sb_packet.specs.Journals.{with_entry};

use crate::entry::Entry;
use std::alloc::{AllocError, Global};
use std::marker::Model;

/// The packets that devices stepped, in the order of rounds and then of devices. Contracts see its entries and
/// `spare`, the number of entries that it can still take without memory.
#[derive(Drop)]
pub struct Journal {
    kept: Vec<Entry>,
    spare: u32,
}

impl Model for Journal {
    ghost use Rattle.std.specs.Prelude.{◌+◌, ◌≤◌, vec_len, vec_capacity};
    ghost use Rattle.sb_packet.specs.Journals.{Ledger};

    ghost Value = { Ledger };

    ghost view = { λ j. record { entries = j.kept.items; spare = j.spare } };

    ghost invariant = { λ j. vec_len j.kept + j.spare ≤ vec_capacity j.kept };
}

impl Journal {
    /// An empty journal. It takes no memory.
    pub fn new(alloc: Global) -> Journal
        ensures empty { result.entries ≡ [] }
        ensures spare { result.spare ≡ 0 }
    {
        Journal {
            kept: Vec::new(alloc),
            spare: 0,
        }
    }

    /// Makes room for so many entries. Where memory is missing, the journal is as before.
    pub fn reserve(&mut self, entries: u32) -> Result<(), AllocError>
        ensures room { OnOk result (entries ≤ self.new.spare) }
        ensures entries { self.new.entries ≡ self.old.entries }
        ensures err { OnErr result (self.new ≡ self.old) }
    {
        if entries > self.spare {
            self.kept.reserve(entries as usize)?;
            self.spare = entries;
        }
        Ok(())
    }

    /// Puts an entry at the end. It takes no memory.
    pub fn add(&mut self, entry: &Entry)
        requires room { 0 < self.old.spare }
        ensures entry { self.new ≡ with_entry self.old entry.now }
    {
        self.kept.push_reserved(*entry);
        self.spare -= 1;
    }

    /// The entries, in order.
    pub fn entries(&self) -> &[Entry]
        ensures { result.now ≡ self.now.entries }
    {
        self.kept.as_slice()
    }
}
