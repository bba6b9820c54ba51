//! How far the scripts of a bundle are in a history.

ghost use Rattle.std.specs.Prelude.{◌≡◌, ◌≢◌, ◌<◌, ◌++◌, ℕ, [], ◌∷◌, List, Some, length, slice_get, true, IfOk, IsSome};
ghost use Rattle.std.specs.Bool.{OnFalse, OnTrue};
ghost use Rattle.std.specs.Option.{option_map_or};
ghost use Rattle.sb_packet.specs.Journals.{IsLawful, may_follow};
ghost use Rattle.sb_packet.specs.Networks.{width_to as width_of_link_to};
ghost use Rattle.sb_packet.specs.Spans.{span_of};
ghost use Rattle.sb_packet.specs.declared.entry.Entry.{Entry as AnyEntry};
ghost use Rattle.sb_flow.specs.NetworkOf.{network_of};
ghost use Rattle.sb_check.specs.Beginnings.{IsLawfulSoFar};
ghost use Rattle.sb_check.specs.Progresses.{HasReached, IsDoneAt, next_at};
ghost use Rattle.sb_check.specs.Spelling.{IsEntryInRange};

use crate::host_progress::HostProgress;
use crate::lookups::{host_place, width_to};
use crate::next_word::NextWord;
use sb_flow::Bundle;
use sb_packet::{Entry, span};
use std::alloc::{AllocError, Global};

/// How far the scripts of a bundle are in a history.
#[derive(Debug, Drop)]
pub struct Progress {
    // for each host, how far its script is at each device
    hosts: Vec<HostProgress>,
    // the entry that came last
    last: Option<Entry>,
}

/// Whether an entry may stand behind another: the round rises, or it stays and the device doesn't fall.
fn may_stand_behind(a: &Entry, b: &Entry) -> bool
    ensures { result ≡ may_follow a.now b.now }
{
    a.round < b.round || (a.round == b.round && a.device <= b.device)
}

impl Progress {
    /// Nothing has come yet.
    ///
    /// # Errors
    ///
    /// `AllocError` where there isn't enough memory.
    pub fn new(alloc: Global, bundle: &Bundle) -> Result<Progress, AllocError>
        ensures start { IfOk result (λ progress. HasReached (network_of bundle.now) progress []) }
    {
        let mut hosts = Vec::with_capacity(alloc, bundle.hosts.len())?;
        for plan in &bundle.hosts {
            hosts.push(HostProgress::new(alloc, bundle, plan)?)?;
        }
        Ok(Progress { hosts, last: None })
    }

    /// The next word of a host at a device, both by their places; None where there is no such host or device.
    fn next_at(&self, host: usize, device: usize) -> Option<NextWord>
        ensures { result ≡ next_at self.now host device }
    {
        let row = self.hosts.get(host)?;
        row.words.get(device).copied()
    }

    /// Puts another word in the place of the next one of a host at a device.
    fn set_next(&mut self, host: usize, device: usize, next: NextWord)
        requires there { IsSome (next_at self.old host device) }
        ensures here { next_at self.new host device ≡ Some next }
        ensures host { (h d : ℕ) → h ≢ host → next_at self.new h d ≡ next_at self.old h d }
        ensures device { (h d : ℕ) → d ≢ device → next_at self.new h d ≡ next_at self.old h d }
        ensures last { self.new.last ≡ self.old.last }
    {
        self.hosts[host].words[device] = next;
    }

    /// Whether an entry may stand behind the last one.
    fn is_in_order(&self, entry: &Entry) -> bool
        ensures { result ≡ option_map_or (λ a. may_follow a entry.now) self.now.last true }
    {
        match &self.last {
            None => true,
            Some(last) => may_stand_behind(last, entry),
        }
    }

    /// Whether an entry may come next; if so it is counted, and else all stays as it is. It takes no memory.
    pub fn admits(&mut self, bundle: &Bundle, entry: &Entry) -> bool
        ensures reached { (journal : List AnyEntry) → let network = network_of bundle.now in
            HasReached network self.old journal → IsEntryInRange network entry.now
            → OnTrue result (HasReached network self.new (journal ++ entry.now ∷ [])) }
        ensures fault { (journal : List AnyEntry) → let network = network_of bundle.now in
            HasReached network self.old journal → IsEntryInRange network entry.now
            → OnFalse result (¬ IsLawfulSoFar network (journal ++ entry.now ∷ [])) }
        ensures kept { OnFalse result (self.new ≡ self.old) }
    {
        if !self.is_in_order(entry) {
            return false;
        }
        if span(&entry.packet.cmd) > u32::from(width_to(bundle, entry.device)) {
            return false;
        }
        let Some(host) = host_place(bundle, entry.packet.cmd.host) else {
            return false;
        };
        let device = usize::from(entry.device);
        let Some(next) = self.next_at(host, device) else {
            return false;
        };
        let plan = &bundle.hosts[host];
        let Some(later) = next.behind(bundle, plan, entry.device, &entry.packet) else {
            return false;
        };
        self.set_next(host, device, later);
        self.last = Some(*entry);
        true
    }

    /// Whether no word of a host is left at a device, both by their places.
    fn is_done_at(&self, bundle: &Bundle, host: usize, device: usize) -> bool
        requires { host < length bundle.now.hosts.items }
        ensures yes { OnTrue result (IsDoneAt (network_of bundle.now) self.now host device) }
        ensures no { OnFalse result (¬ IsDoneAt (network_of bundle.now) self.now host device) }
    {
        let script = bundle.hosts[host].script.as_slice();
        match self.next_at(host, device) {
            None => false,
            Some(next) => script.len() <= next.transaction,
        }
    }

    /// Whether no word of a host is left at any device.
    fn is_host_done(&self, bundle: &Bundle, host: usize) -> bool
        requires { host < length bundle.now.hosts.items }
        ensures yes { OnTrue result ((d : ℕ) → d < length bundle.now.devices.items
            → IsDoneAt (network_of bundle.now) self.now host d) }
        ensures no { OnFalse result (¬ ((d : ℕ) → d < length bundle.now.devices.items
            → IsDoneAt (network_of bundle.now) self.now host d)) }
    {
        for device in 0..bundle.devices.len() {
            if !self.is_done_at(bundle, host, device) {
                return false;
            }
        }
        true
    }

    /// Whether all words of all scripts that are aimed at a device have come.
    pub fn is_whole(&self, bundle: &Bundle) -> bool
        ensures whole { (journal : List AnyEntry) → HasReached (network_of bundle.now) self.now journal
            → OnTrue result (IsLawful (network_of bundle.now) journal) }
        ensures short { (journal : List AnyEntry) → HasReached (network_of bundle.now) self.now journal
            → OnFalse result (¬ IsLawful (network_of bundle.now) journal) }
    {
        for host in 0..bundle.hosts.len() {
            if !self.is_host_done(bundle, host) {
                return false;
            }
        }
        true
    }
}
