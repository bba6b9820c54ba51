//! What the entries of a history come to.

ghost use Rattle.std.specs.Prelude.{◌≡◌, ◌≤◌, ◌<◌, ◌++◌, List, [], ◌∷◌, ◌==◌, IfOk, length, map, slice_index_or};
ghost use Rattle.std.specs.List.{position_from, range_with_len};
ghost use Rattle.sb_packet.specs.Messages.{message_of};
ghost use Rattle.sb_packet.specs.Journals.{IsLawful};
ghost use Rattle.sb_packet.specs.Networks.{Network, opening_memory};
ghost use Rattle.sb_packet.specs.Answers.{run_results};
ghost use Rattle.sb_packet.specs.declared.entry.Entry.{Entry};
ghost use Rattle.sb_flow.specs.Accepted.{IsAccepted};
ghost use Rattle.sb_flow.specs.NetworkOf.{network_of};
ghost use Rattle.sb_text.specs.Told.{FitsNetwork};
ghost use Rattle.sb_check.specs.Beginnings.{IsLawfulSoFar};
ghost use Rattle.sb_check.specs.Gathering.{Gathers, gathered_results, transaction_number as number_at};
ghost use Rattle.sb_check.specs.AnswerNotes.{first_noted, noted_at, notes_with};
ghost use Rattle.sb_check.specs.declared.gathered.Gathered.{Gathered};

use crate::answer_notes::AnswerNotes;
use crate::lookups::host_place;
use sb_flow::{Bundle, HostPlan};
use sb_mem::Memory;
use sb_packet::{Entry, Packet, TxnState, carried};
use sb_text::Results;
use std::alloc::{AllocError, Global};

/// What the entries so far come to: the memory of each device, and what was answered to each transaction of each host.
#[derive(Drop)]
pub struct Gathered {
    memories: Vec<Memory>,
    notes: Vec<AnswerNotes>,
}

/// A device's memory as it is before the first entry.
fn memory_of(alloc: Global, bundle: &Bundle, number: usize) -> Result<Memory, AllocError>
    requires number { number < length (network_of bundle.now).devices }
    ensures memory { IfOk result (λ m. m ≡ opening_memory (network_of bundle.now) number) }
{
    let plan = &bundle.devices[number];
    let memory = Memory::new(
        alloc,
        plan.base,
        plan.pages,
        plan.readonly,
        plan.image.as_slice(),
    )?;
    Ok(memory)
}

/// The memories of all devices as they are before the first entry.
fn memories_of(alloc: Global, bundle: &Bundle) -> Result<Vec<Memory>, AllocError>
    ensures memories { IfOk result (λ memories. memories.items
        ≡ map (opening_memory (network_of bundle.now)) (range_with_len 0 (length (network_of bundle.now).devices))) }
{
    let mut memories = Vec::with_capacity(alloc, bundle.devices.len())?;
    for number in 0..bundle.devices.len() {
        memories.push(memory_of(alloc, bundle, number)?)?;
    }
    Ok(memories)
}

/// What is noted of all transactions before the first entry.
fn notes_of(alloc: Global, bundle: &Bundle) -> Result<Vec<AnswerNotes>, AllocError>
    ensures notes { IfOk result (λ notes. notes.items
        ≡ map (λ h. map (first_noted (network_of bundle.now)) h.script) (network_of bundle.now).hosts) }
{
    let mut notes = Vec::with_capacity(alloc, bundle.hosts.len())?;
    for host in &bundle.hosts {
        notes.push(AnswerNotes::new(alloc, bundle, host.script.as_slice())?)?;
    }
    Ok(notes)
}

/// The place of the host with an id, where there is one.
#[tactic(auto, using(sb_flow::proofs::Maps::position_of_map))]
fn host_in_network(bundle: &Bundle, id: u8) -> Option<usize>
    ensures place { result ≡ position_from (λ h. h.id == id) 0 (network_of bundle.now).hosts }
{
    host_place(bundle, id)
}

/// The transaction to which the answers at an address go, by its number in its host's script.
fn transaction_number(address: u64) -> usize
    ensures number { result ≡ number_at address }
{
    (address % (1 << 40) / (1 << 11)) as usize
}

/// Notes the answer to a packet of the host at that place.
fn note(notes: &mut Vec<AnswerNotes>, host: usize, answer: &Packet)
    requires host { host < length notes.old.items }
    requires there { number_at answer.now.dst < length (slice_index_or notes.old.items host []) }
    requires room { length (message_of answer.now).bytes ≤ (noted_at notes.old.items host (number_at answer.now.dst)).room }
    ensures noted { notes.new.items
        ≡ notes_with notes.old.items host (number_at answer.now.dst) answer.now.cmd.tail (message_of answer.now).bytes }
{
    let of_host = &mut notes[host];
    of_host.note(
        transaction_number(answer.dst),
        answer.cmd.tail,
        carried(answer),
    );
}

impl Gathered {
    /// No entry yet: each memory has its image, and nothing is answered but transactions at no device. All memory is
    /// taken here.
    ///
    /// # Errors
    ///
    /// `AllocError` where there isn't enough memory.
    pub fn new(alloc: Global, bundle: &Bundle) -> Result<Gathered, AllocError>
        ensures none { IfOk result (Gathers (network_of bundle.now) []) }
    {
        let memories = memories_of(alloc, bundle)?;
        let notes = notes_of(alloc, bundle)?;
        Ok(Gathered { memories, notes })
    }

    /// Takes an entry that comes rightly behind those before it: steps its device's memory, and notes what was answered.
    /// Takes no memory.
    pub fn take(&mut self, bundle: &Bundle, entry: &Entry)
        requires rightly { (journal : List Entry) × Gathers (network_of bundle.now) journal self.old
            × IsLawfulSoFar (network_of bundle.now) (journal ++ entry.now ∷ []) }
        ensures gathered { (journal : List Entry) → Gathers (network_of bundle.now) journal self.old
            → IsLawfulSoFar (network_of bundle.now) (journal ++ entry.now ∷ [])
            → Gathers (network_of bundle.now) (journal ++ entry.now ∷ []) self.new }
    {
        let memory = &mut self.memories[usize::from(entry.device)];
        let Some(answer) = memory.step(&entry.packet) else {
            return;
        };
        let Some(host) = host_in_network(bundle, entry.packet.cmd.host) else {
            unreachable!()
        };
        note(&mut self.notes, host, &answer);
    }
}

impl Results for Gathered {
    ghost use Rattle.std.specs.Prelude.{◌≡◌};
    ghost use Rattle.sb_check.specs.Gathering.{gathered_results};

    // It tells what is gathered.
    ghost tells = { λ gathered told. told ≡ gathered_results gathered };

    fn state(&self, host: u8, index: u32) -> TxnState {
        let notes = &self.notes[usize::from(host)];
        notes.state(index as usize)
    }

    fn body(&self, host: u8, index: u32) -> &[u8] {
        let notes = &self.notes[usize::from(host)];
        notes.body(index as usize)
    }

    fn image(&self, device: u8) -> &[u8] {
        let memory = &self.memories[usize::from(device)];
        memory.image()
    }
}

/// What is gathered of a lawful journal is what the journal comes to. It is always of the network's size.
pub fn lawful_journals_are_told()
    ensures told { (network : Network) (journal : List Entry) (gathered : Gathered)
        → IsAccepted network → Gathers network journal gathered → IsLawful network journal
        → run_results network journal ≡ gathered_results gathered }
    ensures fits { (network : Network) (journal : List Entry) (gathered : Gathered)
        → IsAccepted network → Gathers network journal gathered → FitsNetwork network (gathered_results gathered) }
{}
